//! Verdicts and ends that were worked out by hand from the definition of truth.

ghost use Rattle.std.specs.Prelude.{◌≡◌, ◌<◌};

use crate::made::{event, judge, open};
use mon_base::Steps;
use monitor_step::StepEnd;
use std::alloc::Global;
use std::marker::Brand;
use std::sync::ledger::{Blank, Ledger};
use std::test::Fail;

/// A specification with one property, the sizes of the monitor, and what is said of the events of a log.
struct Case {
    spec: &'static str,
    bits: u8,
    nodes: u32,
    /// The events, with spaces between them.
    log: &'static str,
    /// T or F for each event that is judged.
    verdicts: &'static str,
    /// Why the next event isn't judged.
    end: Option<StepEnd>,
}

/// The verdicts at the events of the log, and why there are no more.
fn answers<L: Ledger>(
    alloc: Global,
    case: &Case,
    blank: Blank,
) -> Result<(String, Option<StepEnd>), Fail>
    requires name { blank.name ≡ L.name }
    requires parts { blank.parts ≡ L.parts }
    requires some { 0 < L.parts }
{
    let mut steps = Steps::<L>::new(blank);
    let mut monitor = open(alloc, case.spec, case.bits, case.nodes)?;
    let mut verdicts = String::new(alloc);
    for line in case.log.split(' ') {
        match judge(&mut monitor, &event(alloc, line)?, &mut steps)? {
            Ok(true) => verdicts.push('T')?,
            Ok(false) => verdicts.push('F')?,
            Err(end) => return Ok((verdicts, Some(end))),
        }
    }
    Ok((verdicts, None))
}

const ACCESS: &str = "prop access : forall u . access(u) -> [login(u),logout(u))";

const ANSWERED: &str = "prop t : forall x . ack(x) -> P[<=10] req(x)";

const OPEN: &str = "pred open(x) = exists y . o(x,y) prop m : forall y . c(y) -> P open(y)";

const CASES: &[Case] = &[
    Case {
        spec: ACCESS,
        bits: 8,
        nodes: 1000,
        log: "login,ann access,ann access,bob logout,ann access,ann",
        verdicts: "TTFTF",
        end: None,
    },
    // The one code is used again.
    Case {
        spec: ACCESS,
        bits: 1,
        nodes: 1000,
        log: "login,ann logout,ann login,bob access,bob",
        verdicts: "TTTT",
        end: None,
    },
    Case {
        spec: ACCESS,
        bits: 1,
        nodes: 1000,
        log: "login,ann login,bob",
        verdicts: "T",
        end: Some(StepEnd::CodesFull {
            variable: 0,
            need: 2,
        }),
    },
    // The code that ann had is bob's in between.
    Case {
        spec: ACCESS,
        bits: 1,
        nodes: 1000,
        log: "login,ann logout,ann login,bob access,bob logout,bob access,ann",
        verdicts: "TTTTTF",
        end: None,
    },
    // Texts that no event has yet are meant too.
    Case {
        spec: "prop q : forall x . P p(x)",
        bits: 8,
        nodes: 1000,
        log: "p,a",
        verdicts: "F",
        end: None,
    },
    Case {
        spec: "prop q : exists x . ! P p(x)",
        bits: 1,
        nodes: 1000,
        log: "p,a",
        verdicts: "T",
        end: None,
    },
    Case {
        spec: "prop r : exists x . P p(x)",
        bits: 2,
        nodes: 2,
        log: "p,a",
        verdicts: "",
        end: Some(StepEnd::NodesFull {
            subformula: 3,
            row: 1,
        }),
    },
    Case {
        spec: "prop r : exists x . P p(x)",
        bits: 2,
        nodes: 3,
        log: "p,a p,b",
        verdicts: "T",
        end: Some(StepEnd::NodesFull {
            subformula: 1,
            row: 1,
        }),
    },
    // At the third event the table is full, and four of its nodes are dead.
    Case {
        spec: "prop r : exists x . P p(x)",
        bits: 2,
        nodes: 5,
        log: "p,a p,b p,c",
        verdicts: "TTT",
        end: None,
    },
    Case {
        spec: OPEN,
        bits: 8,
        nodes: 1000,
        log: "o,a,b c,a c,b",
        verdicts: "TTF",
        end: None,
    },
    Case {
        spec: "prop w : forall x . forall y . ! r(x,y)",
        bits: 8,
        nodes: 1000,
        log: "r,b,c",
        verdicts: "F",
        end: None,
    },
    Case {
        spec: "prop v : forall x . forall y . r(x) -> r(y)",
        bits: 8,
        nodes: 1000,
        log: "r,b",
        verdicts: "F",
        end: None,
    },
    // At the second event there is no p.
    Case {
        spec: "prop s : exists x . p(x) & ! q(x,\"k\")",
        bits: 8,
        nodes: 1000,
        log: "p,a q,a,k",
        verdicts: "TF",
        end: None,
    },
    // The fourth event names another constant, and the fifth marks the last text.
    Case {
        spec: "prop s : exists x . P p(x) & ! P q(x,\"k\")",
        bits: 8,
        nodes: 1000,
        log: "p,a q,a,k p,b q,b,j q,b,k",
        verdicts: "TFTTF",
        end: None,
    },
    // Nothing stands before the first event.
    Case {
        spec: "prop t : forall x . p(x) -> @ q(x)",
        bits: 8,
        nodes: 1000,
        log: "p,a q,a p,a p,a q,a p,b",
        verdicts: "FTTFTF",
        end: None,
    },
    Case {
        spec: "prop h : exists x . H (p(x) | r)",
        bits: 2,
        nodes: 1000,
        log: "r p,a r p,b r",
        verdicts: "TTTFF",
        end: None,
    },
    // The interval of a ends at the fourth event, and that of b at the fifth.
    Case {
        spec: "prop i : exists x . [p(x),exists y . q(x,y))",
        bits: 8,
        nodes: 1000,
        log: "p,a q,b,c p,b q,a,b q,b,b",
        verdicts: "TTTTF",
        end: None,
    },
    // At the fourth event a is left for b, and at the fifth b is left too.
    Case {
        spec: "prop n : exists x . (exists y . q(x,y)) S p(x)",
        bits: 8,
        nodes: 1000,
        log: "p,a q,a,b q,a,c p,b q,a,b",
        verdicts: "TTTTF",
        end: None,
    },
    Case {
        spec: "prop n : (forall x . ! p(x)) S r",
        bits: 1,
        nodes: 1000,
        log: "p,a r idle p,b r",
        verdicts: "FTTFT",
        end: None,
    },
    // Ten units after the request, and eleven.
    Case {
        spec: ANSWERED,
        bits: 8,
        nodes: 1000,
        log: "req,a@100 ack,a@110 ack,a@111",
        verdicts: "TTF",
        end: None,
    },
    // An age tells a apart from b.
    Case {
        spec: ANSWERED,
        bits: 1,
        nodes: 1000,
        log: "req,a@0 req,b@5",
        verdicts: "T",
        end: Some(StepEnd::CodesFull {
            variable: 0,
            need: 2,
        }),
    },
    // The request of a is past its bound, so that b has the one code.
    Case {
        spec: ANSWERED,
        bits: 1,
        nodes: 2000,
        log: "req,a@0 tick@20 req,b@21 ack,b@31 ack,b@32",
        verdicts: "TTTTF",
        end: None,
    },
    // The earliest support counts.
    Case {
        spec: "prop s : forall x . done(x) -> true S[>5] go(x)",
        bits: 8,
        nodes: 1000,
        log: "go,a@0 go,a@4 done,a@6",
        verdicts: "TTT",
        end: None,
    },
    Case {
        spec: "prop s : forall x . done(x) -> true S[>5] go(x)",
        bits: 8,
        nodes: 1000,
        log: "go,a@0 done,a@5 done,a@6 done,b@9",
        verdicts: "TFTF",
        end: None,
    },
    // The latest support counts within a bound, and the left side ends it.
    Case {
        spec: "prop w : exists x . (! stop(x)) S[<=3] go(x)",
        bits: 8,
        nodes: 1000,
        log: "go,a@0 go,a@2 tick@5 tick@6 go,a@6 stop,a@7 go,b@7",
        verdicts: "TTTFTFT",
        end: None,
    },
    Case {
        spec: "prop h : H[>5] ok",
        bits: 8,
        nodes: 1000,
        log: "ok@0 bad@1 ok@6 ok@7",
        verdicts: "TTTF",
        end: None,
    },
    Case {
        spec: "prop h : H[<=5] ok",
        bits: 8,
        nodes: 1000,
        log: "bad@0 ok@5 ok@6",
        verdicts: "FFT",
        end: None,
    },
    Case {
        spec: "prop o : exists x . P[>2] p(x)",
        bits: 8,
        nodes: 1000,
        log: "p,a@0 p,b@2 tick@2 tick@3",
        verdicts: "FFFT",
        end: None,
    },
    // Four bits spell an age of at most eleven, so the age 0 has four branches. While the table still needs them, the age 10
    // has three more, since the last bit of both is 0.
    Case {
        spec: "prop o : P[<=10] p",
        bits: 1,
        nodes: 3,
        log: "p",
        verdicts: "",
        end: Some(StepEnd::NodesFull {
            subformula: 2,
            row: 3,
        }),
    },
    Case {
        spec: "prop o : P[<=10] p",
        bits: 1,
        nodes: 4,
        log: "p@0 q@10 q@11",
        verdicts: "T",
        end: Some(StepEnd::NodesFull {
            subformula: 2,
            row: 1,
        }),
    },
    Case {
        spec: "prop o : P[<=10] p",
        bits: 1,
        nodes: 8,
        log: "p@0 q@10 q@11",
        verdicts: "TTF",
        end: None,
    },
];

#[test]
fn answers_are_as_worked_by_hand(rt: HostRuntime) -> Result<(), Fail> {
    for case in CASES {
        let (verdicts, end) = answers::<Brand>(rt.alloc(), case, Blank::new(1))?;
        assert_eq!(rt;
            verdicts.as_str(),
            case.verdicts,
            "{} at {}",
            case.spec,
            case.log
        );
        assert_eq!(rt; end, case.end, "{} at {}", case.spec, case.log);
    }
    Ok(())
}
