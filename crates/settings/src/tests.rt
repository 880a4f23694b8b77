//! Command lines and what they ask for, worked out by hand from the rules of the command.

use crate::{LogFrom, Settings, UsageEnd, read};
use qtl_syntax::Text;
use std::alloc::{AllocError, Global};
use std::test::Fail;

/// In each line words with bars between them, and what they ask for: bits, nodes, cache, limit, all,
/// names of listeners with `;` behind each, SPEC, and LOG or `seed:events`.
static LINES: &str = "s|l => 16 1048576 2097152 281474976710656 false [] s l
--bits=5|s|l => 5 1048576 2097152 281474976710656 false [] s l
--bits|5|s|l => 5 1048576 2097152 281474976710656 false [] s l
s|--bits|5|l => 5 1048576 2097152 281474976710656 false [] s l
s|l|--bits=5 => 5 1048576 2097152 281474976710656 false [] s l
--bits=1|s|l => 1 1048576 2097152 281474976710656 false [] s l
--bits=20|s|l => 20 1048576 2097152 281474976710656 false [] s l
--bits=0|s|l => usage
--bits=21|s|l => usage
--bits=00000000000000000007|s|l => 7 1048576 2097152 281474976710656 false [] s l
--bits=000000000000000000007|s|l => usage
--bits=|s|l => usage
--bits||s|l => usage
--bits=+5|s|l => usage
--bits=5x|s|l => usage
--bits= 5|s|l => usage
--bits|-5|s|l => usage
--bits=-5|s|l => usage
--bits=3=4|s|l => usage
--bits=5|--bits=5|s|l => usage
s|l|--bits => usage
--BITS=5|s|l => usage
--bit=5|s|l => usage
--nodes=2|s|l => 16 2 2097152 281474976710656 false [] s l
--nodes=1|s|l => usage
--nodes=2097150|s|l => 16 2097150 2097152 281474976710656 false [] s l
--nodes=2097151|s|l => 16 2097151 2097153 281474976710656 false [] s l
--nodes=4194304|s|l => 16 4194304 4194306 281474976710656 false [] s l
--nodes=4194305|s|l => usage
--nodes=2|--nodes=2|s|l => usage
--cache=1048578|s|l => 16 1048576 1048578 281474976710656 false [] s l
--cache=1048577|s|l => usage
--cache=8388608|s|l => 16 1048576 8388608 281474976710656 false [] s l
--cache=8388609|s|l => usage
--nodes=2|--cache=4|s|l => 16 2 4 281474976710656 false [] s l
--cache=4|--nodes=2|s|l => 16 2 4 281474976710656 false [] s l
--nodes=2|--cache=3|s|l => usage
--nodes=4194304|--cache=4194306|s|l => 16 4194304 4194306 281474976710656 false [] s l
--nodes=4194304|--cache=4194305|s|l => usage
--nodes=1|--cache=2097152|s|l => usage
--limit=1|s|l => 16 1048576 2097152 1 false [] s l
--limit=0|s|l => usage
--limit=281474976710656|s|l => 16 1048576 2097152 281474976710656 false [] s l
--limit=281474976710657|s|l => usage
--limit=18446744073709551615|s|l => usage
--limit=18446744073709551616|s|l => usage
--limit=99999999999999999999|s|l => usage
--limit=100000000000000000001|s|l => usage
--all|s|l => 16 1048576 2097152 281474976710656 true [] s l
s|l|--all => 16 1048576 2097152 281474976710656 true [] s l
--all|--all|s|l => usage
--all=true|s|l => usage
--al|s|l => usage
--unknown|s|l => usage
-a|s|l => usage
-x|s|l => usage
-5|s|l => usage
s|-5 => usage
--help => usage
--help|s|l => usage
s|l|--help => usage
-h|s|l => usage
--version|s|l => usage
help|l => 16 1048576 2097152 281474976710656 false [] help l
s => usage
 => usage
|l => 16 1048576 2097152 281474976710656 false []  l
s|l|m => usage
-|l => 16 1048576 2097152 281474976710656 false [] - l
s|- => 16 1048576 2097152 281474976710656 false [] s -
-|- => usage
--|-|- => usage
--|s|l => 16 1048576 2097152 281474976710656 false [] s l
s|--|l => 16 1048576 2097152 281474976710656 false [] s l
--|--bits|l => 16 1048576 2097152 281474976710656 false [] --bits l
--|-5|l => 16 1048576 2097152 281474976710656 false [] -5 l
s|--|-- => 16 1048576 2097152 281474976710656 false [] s --
s|--|l|m => usage
s|l|-- => 16 1048576 2097152 281474976710656 false [] s l
--sample=1,5|s => 16 1048576 2097152 281474976710656 false [] s 1:5
s|--sample|0,1 => 16 1048576 2097152 281474976710656 false [] s 0:1
--sample=4294967295,10000000|s => 16 1048576 2097152 281474976710656 false [] s 4294967295:10000000
--sample=4294967296,1|s => usage
--sample=1,0|s => usage
--sample=1,10000001|s => usage
--sample=00000000000000000001,00000000000000000002|s => 16 1048576 2097152 281474976710656 false [] s 1:2
--sample=000000000000000000001,2|s => usage
--sample=1,000000000000000000002|s => usage
--sample=1|s => usage
--sample=|s => usage
--sample=,|s => usage
--sample=1,|s => usage
--sample=,1|s => usage
--sample=1,2,3|s => usage
--sample=1,2,|s => usage
--sample=1;2|s => usage
--sample=1, 2|s => usage
--sample=a,2|s => usage
--sample=1,2|s|l => usage
--sample=1,2|--sample=1,2|s => usage
--sample=1,2 => usage
--sample=1,2|- => 16 1048576 2097152 281474976710656 false [] - 1:2
--sample=1,2|s|- => usage
--listen=a|s|l => 16 1048576 2097152 281474976710656 false [a;] s l
--listen=a,b|s|l => 16 1048576 2097152 281474976710656 false [a;b;] s l
s|--listen|b,a|l => 16 1048576 2097152 281474976710656 false [b;a;] s l
--listen=|s|l => 16 1048576 2097152 281474976710656 false [;] s l
--listen||s|l => 16 1048576 2097152 281474976710656 false [;] s l
--listen=a,|s|l => 16 1048576 2097152 281474976710656 false [a;;] s l
--listen=,a,,b|s|l => 16 1048576 2097152 281474976710656 false [;a;;b;] s l
--listen=a,a|s|l => 16 1048576 2097152 281474976710656 false [a;a;] s l
--listen=a|--listen=b|s|l => usage
--all|s|--bits|3|l|--nodes|10|--cache=12|--limit|100|--listen|x => 3 10 12 100 true [x;] s l";

fn words_of(alloc: Global, line: &str) -> Result<Vec<String>, AllocError> {
    let mut words = Vec::new(alloc);
    for word in line.split('|') {
        words.push(String::from_str(alloc, word)?)?;
    }
    Ok(words)
}

fn names_of(alloc: Global, names: &[Text]) -> Result<Vec<u8>, AllocError> {
    let mut bytes = Vec::new(alloc);
    for name in names {
        bytes.extend_from_slice(name.bytes())?;
        bytes.push(b';')?;
    }
    Ok(bytes)
}

fn log_of(alloc: Global, log: &LogFrom) -> Result<String, AllocError> {
    match log {
        LogFrom::File(name) => String::from_str(alloc, name.as_str()),
        LogFrom::Sample { seed, events } => format!(in alloc; "{seed}:{events}"),
    }
}

fn line_of(alloc: Global, s: &Settings) -> Result<String, Fail> {
    let names = String::from_utf8(names_of(alloc, s.listen.as_slice())?)?;
    let log = log_of(alloc, &s.log)?;
    Ok(format!(in alloc;
        "{} {} {} {} {} [{names}] {} {log}",
        s.bits, s.nodes, s.cache, s.limit, s.all, s.spec
    )?)
}

fn answer_of(alloc: Global, words: &[String]) -> Result<String, Fail> {
    match read(alloc, words) {
        Ok(settings) => line_of(alloc, &settings),
        Err(UsageEnd::Usage) => Ok(String::from_str(alloc, "usage")?),
        Err(UsageEnd::NoMemory) => Ok(String::from_str(alloc, "no memory")?),
    }
}

#[test]
fn command_lines(rt: HostRuntime) -> Result<(), Fail> {
    let alloc = rt.alloc();
    for row in LINES.lines() {
        let (line, wanted) = row.split_once(" => ").ok_or("no answer")?;
        let words = words_of(alloc, line)?;
        let answer = answer_of(alloc, words.as_slice())?;
        assert_eq!(rt; answer.as_str(), wanted, "{line}");
    }
    let none = answer_of(alloc, &[])?;
    assert_eq!(rt; none.as_str(), "usage");
    Ok(())
}
