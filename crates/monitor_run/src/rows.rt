//! The rows of the tests: specifications and logs, with their reports.

/// A name, a specification and a log, the report, and the status.
pub type Case = (&'static str, &'static str, &'static str, &'static str, u8);

pub const SINCE: &str = "prop r : (! stop(\"a\")) S go(\"a\")\n";

/// Who accesses logged in, and didn't log out since.
pub const ACCESS: &str = "prop access : forall u . access(u) -> [login(u), logout(u))";

/// Each acknowledgement comes at most ten units of time after its request.
pub const DEADLINE: &str = "prop t : forall x . ack(x) -> P[<=10] req(x)";

pub const FORMS: &[Case] = &[
    (
        "false at one event",
        SINCE,
        "go,a\nstop,a\n",
        "violation 2 r\nevents 2 violations 1\n",
        1,
    ),
    ("an empty log", SINCE, "", "events 0 violations 0\n", 0),
    (
        "true at each event",
        SINCE,
        "go,a\ngo,b\n",
        "events 2 violations 0\n",
        0,
    ),
    (
        "false before the first one",
        SINCE,
        "go,b\ngo,a\nstop,b\n",
        "violation 1 r\nevents 3 violations 1\n",
        1,
    ),
    (
        "a mark, blanks and quotes",
        SINCE,
        "\u{feff} go , a \r\n\nstop,\"a\"",
        "violation 2 r\nevents 2 violations 1\n",
        1,
    ),
    (
        "doubled quotes",
        SINCE,
        "go,\"a\"\"b\"\n",
        "violation 1 r\nevents 1 violations 1\n",
        1,
    ),
    (
        "no line feed at the end",
        SINCE,
        "go,a\nidle",
        "events 2 violations 0\n",
        0,
    ),
    (
        "a mark alone",
        SINCE,
        "\u{feff}",
        "events 0 violations 0\n",
        0,
    ),
];

pub const RECORD_FAULTS: &[Case] = &[
    (
        "a quote open at the end",
        SINCE,
        "go,a\nstop,\"a",
        "stopped: quote not closed at record 2\n",
        4,
    ),
    (
        "text behind a quote",
        SINCE,
        "stop,a\n\ngo,\"a\"b\ngo,a\n",
        "violation 1 r\nstopped: text after quote at record 2\n",
        4,
    ),
    (
        "a quote open at the end, behind a violation and an empty line",
        ACCESS,
        "access,bob\n\nlogin,\"ann",
        "violation 1 access u=\"bob\"\nstopped: quote not closed at record 2\n",
        4,
    ),
    (
        "an empty name",
        SINCE,
        "\n,x\n",
        "stopped: empty name at record 1\n",
        4,
    ),
];

pub const PROPERTIES: &[Case] = &[
    (
        "two properties over a macro",
        "pred on(x) = [go(x),stop(x)) prop a : on(\"1\") prop b : ! on(\"2\")",
        "go,1\ngo,2\n",
        "violation 2 b\nevents 2 violations 1\n",
        1,
    ),
    (
        "historically",
        "prop n : H (go(1) | P stop(1))",
        "go,1\nidle\n",
        "violation 2 n\nevents 2 violations 1\n",
        1,
    ),
    (
        "previous at the first event",
        "prop r : @ true",
        "a\nb\n",
        "violation 1 r\nevents 2 violations 1\n",
        1,
    ),
    (
        "three properties",
        "prop r : P go prop s : go -> false prop t : go <-> stop",
        "go\nstop\nidle\n",
        "violation 1 s\nviolation 1 t\nviolation 2 t\nevents 3 violations 3\n",
        1,
    ),
    (
        "a macro that no property calls",
        "pred m() = a prop r : b",
        "go\n",
        "violation 1 r\nevents 1 violations 1\n",
        1,
    ),
    (
        "a comma in quotes",
        "prop r : p(\"a,b\") S q",
        "q\np,a,b\np,\"a,b\"\n",
        "violation 2 r\nviolation 3 r\nevents 3 violations 2\n",
        1,
    ),
    (
        "a comma in quotes alone",
        "prop r : p(\"a,b\")",
        "p,\"a,b\"\n",
        "events 1 violations 0\n",
        0,
    ),
    (
        "texts are compared by bytes",
        "prop r : p(\"\",7)",
        "p,,7\np,,07\n",
        "violation 2 r\nevents 2 violations 1\n",
        1,
    ),
    (
        "since within since",
        "prop r : a S (b S c)",
        "c\nb\na\nb\n",
        "violation 4 r\nevents 4 violations 1\n",
        1,
    ),
];

/// Specifications whose properties have a bound on time, and one whose macro has one that no property calls.
pub const TIMED: &[Case] = &[
    (
        "historically, more than",
        "prop h : H[>5] ok",
        "ok,0\nbad,1\nok,6\nok,7\n",
        "violation 4 h\nevents 4 violations 1\n",
        1,
    ),
    (
        "historically, at most",
        "prop h : H[<=5] ok",
        "bad,0\nok,5\nok,6\n",
        "violation 1 h\nviolation 2 h\nevents 3 violations 2\n",
        1,
    ),
    (
        "once, at most",
        "prop r : P[<=7] go",
        "go,0\nidle,7\nidle,8\n",
        "violation 3 r\nevents 3 violations 1\n",
        1,
    ),
    (
        "since, more than",
        "prop s : a S[>3] b",
        "b,0\na,3\na,4",
        "violation 1 s\nviolation 2 s\nevents 3 violations 2\n",
        1,
    ),
    (
        "a deadline for each value",
        "prop t : forall x . done(x) -> P[<=10] start(x)",
        "start,a,0\nstart,b,5\ndone,a,10\ndone,b,16\n",
        "violation 4 t x=\"b\"\nevents 4 violations 1\n",
        1,
    ),
    (
        "a bound in a macro that is called",
        "pred m() = forall x . P[>7] a(x) prop r : go & m",
        "go,0\n",
        "violation 1 r\nevents 1 violations 1\n",
        1,
    ),
    (
        "a bound in a macro that isn't",
        "pred m() = P[>7] a prop r : go",
        "go\ngo,7\n",
        "violation 2 r\nevents 2 violations 1\n",
        1,
    ),
    (
        "the last unit of a deadline",
        DEADLINE,
        "req,a,100\nack,a,110\nack,a,111\n",
        "violation 3 t x=\"a\"\nevents 3 violations 1\n",
        1,
    ),
    (
        "the earliest of several counts",
        "prop s : forall x . done(x) -> true S[>5] go(x)",
        "go,a,0\ngo,a,4\ndone,a,6\n",
        "events 3 violations 0\n",
        0,
    ),
    (
        "one holder at a time, and none for more than a minute",
        "// who holds a lock took it, and hasn't given it back\n\
         pred held(t,l) = [acq(t,l),rel(t,l))\n\
         prop single : forall l . ! exists t . acq(t,l) & @ exists s . held(s,l)\n\
         prop fresh : forall t . forall l . held(t,l) -> P[<=60] acq(t,l)\n",
        "acq,t1,l1,0\nacq,t2,l1,10\nrel,t1,l1,20\ntick,70\ntick,71\n",
        "violation 2 single l=\"l1\"\nviolation 5 fresh t=\"t2\" l=\"l1\"\nevents 5 violations 2\n",
        1,
    ),
    (
        "the largest time",
        "prop h : H[<=5] ok",
        "ok,18446744073709551615\n",
        "events 1 violations 0\n",
        0,
    ),
];

pub const TIME_FAULTS: &[Case] = &[
    (
        "a time that falls",
        "prop h : H[<=5] ok",
        "ok,5\nok,4\n",
        "stopped: time falls from 5 to 4 at record 2\n",
        4,
    ),
    (
        "a time that falls behind violations",
        "prop h : H[<=5] ok",
        "bad,5\nok,5\nok,4\n",
        "violation 1 h\nviolation 2 h\nstopped: time falls from 5 to 4 at record 3\n",
        4,
    ),
    (
        "a time that falls behind a value",
        DEADLINE,
        "ack,a,7\nack,b,6\n",
        "violation 1 t x=\"a\"\nstopped: time falls from 7 to 6 at record 2\n",
        4,
    ),
    (
        "no time",
        "prop r : P[<=7] go",
        "go\n",
        "stopped: bad time at record 1\n",
        4,
    ),
    (
        "no time for a macro's bound",
        "pred m() = forall x . P[>7] a(x) prop r : go & m",
        "go\n",
        "stopped: bad time at record 1\n",
        4,
    ),
    (
        "a time above the largest",
        "prop h : H[<=5] ok",
        "ok,18446744073709551616\n",
        "stopped: bad time at record 1\n",
        4,
    ),
];

pub const QUANTIFIED: &[Case] = &[
    (
        "access between login and logout",
        ACCESS,
        "login,ann\naccess,ann\naccess,bob\nlogout,ann\naccess,ann\n",
        "violation 3 access u=\"bob\"\nviolation 5 access u=\"ann\"\nevents 5 violations 2\n",
        1,
    ),
    ("no event", ACCESS, "", "events 0 violations 0\n", 0),
    (
        "a mark, blanks and carriage returns",
        ACCESS,
        "\u{feff} login , ann \r\n\naccess,\"ann\"\r\naccess,bob",
        "violation 3 access u=\"bob\"\nevents 3 violations 1\n",
        1,
    ),
    (
        "a text that the log doesn't have",
        "prop q : forall x . P p(x)",
        "p,a\n",
        "violation 1 q x=*\nevents 1 violations 1\n",
        1,
    ),
    (
        "a quantifier in a macro",
        "pred open(x) = exists y . o(x,y) prop m : forall y . c(y) -> P open(y)",
        "o,a,b\nc,a\nc,b\n",
        "violation 3 m y=\"b\"\nevents 3 violations 1\n",
        1,
    ),
    (
        "two variables of one event",
        "prop w : forall x . forall y . ! r(x,y)",
        "r,b,c\n",
        "violation 1 w x=\"b\" y=\"c\"\nevents 1 violations 1\n",
        1,
    ),
    (
        "each variable by itself",
        "prop v : forall x . forall y . r(x) -> r(y)",
        "r,b\n",
        "violation 1 v x=\"b\" y=*\nevents 1 violations 1\n",
        1,
    ),
    (
        "a text in quotes, and one of control bytes",
        ACCESS,
        "access,\"a\"\"b\\\"\naccess,\"\t\n\"\n",
        "violation 1 access u=\"a\\\"b\\\\\"\nviolation 2 access u=\"\\x09\\x0a\"\nevents 2 violations 2\n",
        1,
    ),
    (
        "the chain through a macro, and the least of several",
        "pred m(z) = forall x . ! P a(x,z) prop p : forall x . m(x)",
        "a,3,1\na,2,1\n",
        "violation 1 p x=\"1\" x=\"3\"\nviolation 2 p x=\"1\" x=\"2\"\nevents 2 violations 2\n",
        1,
    ),
    (
        "exists and forall",
        "prop n : exists x . go(x) prop o : forall x . go(x) -> @ P go(x)",
        "go\ngo,a\ngo,b\ngo,a\n",
        "violation 1 n\nviolation 2 o x=\"a\"\nviolation 3 o x=\"b\"\nevents 4 violations 3\n",
        1,
    ),
];

/// Runs with options: a code that is used again, one that isn't to be had, a row that has too few nodes, a log that is longer
/// than its limit, and true verdicts.
pub const OPTIONS: &[(&str, Case)] = &[
    (
        "--bits=1 --nodes=1000 --cache=4000",
        (
            "a code is used again",
            ACCESS,
            "login,ann\nlogout,ann\nlogin,bob\naccess,bob\n",
            "events 4 violations 0\n",
            0,
        ),
    ),
    (
        "--bits=1 --nodes=1000 --cache=4000",
        (
            "no code is left",
            ACCESS,
            "login,ann\nlogin,bob\n",
            "stopped: codes full at event 2, variable 0 (u), need 2\n",
            5,
        ),
    ),
    (
        "--bits=1 --nodes=1000 --cache=4000",
        (
            "codes are used again and again",
            ACCESS,
            "login,ann\nlogout,ann\nlogin,bob\naccess,bob\nlogout,bob\naccess,ann\n",
            "violation 6 access u=\"ann\"\nevents 6 violations 1\n",
            1,
        ),
    ),
    (
        "--bits=1 --nodes=1000 --cache=4000",
        (
            "any other text needs no code",
            "prop q : exists x . ! P p(x)",
            "p,a\n",
            "events 1 violations 0\n",
            0,
        ),
    ),
    (
        "--bits=2 --nodes=2 --cache=4000",
        (
            "two nodes are too few",
            "prop r : exists x . P p(x)",
            "p,a\n",
            "stopped: nodes full at event 1, subformula 3, row 1\n",
            5,
        ),
    ),
    (
        "--bits=2 --nodes=3 --cache=4000",
        (
            "three nodes suffice",
            "prop r : exists x . P p(x)",
            "p,a\n",
            "events 1 violations 0\n",
            0,
        ),
    ),
    (
        "--bits=2 --nodes=3 --cache=4000",
        (
            "three nodes are too few for two values",
            "prop r : exists x . P p(x)",
            "p,a\np,b\n",
            "stopped: nodes full at event 2, subformula 1, row 1\n",
            5,
        ),
    ),
    (
        "--bits=2 --nodes=5 --cache=4000",
        (
            "five nodes for three values",
            "prop r : exists x . P p(x)",
            "p,a\np,b\np,c\n",
            "events 3 violations 0\n",
            0,
        ),
    ),
    (
        "--bits=1 --nodes=1000 --cache=4000",
        (
            "lines before codes are full",
            "prop a : false prop v : forall thing . P p(thing)",
            "q\np,a\np,b\n",
            "violation 1 a\nviolation 1 v thing=*\nviolation 2 a\nviolation 2 v thing=*\n\
             stopped: codes full at event 3, variable 0 (thing), need 2\n",
            5,
        ),
    ),
    (
        "--bits=8 --nodes=1000 --cache=4000 --limit=4",
        (
            "a limit within the first record",
            SINCE,
            "go,a\nstop,a\n",
            "stopped: log longer than 4 bytes\n",
            4,
        ),
    ),
    (
        "--bits=8 --nodes=1000 --cache=4000 --limit=11",
        (
            "a limit one byte before the end",
            SINCE,
            "go,a\nstop,a\n",
            "stopped: log longer than 11 bytes\n",
            4,
        ),
    ),
    (
        "--bits=8 --nodes=1000 --cache=4000 --limit=12",
        (
            "a limit at the end",
            SINCE,
            "go,a\nstop,a\n",
            "violation 2 r\nevents 2 violations 1\n",
            1,
        ),
    ),
    (
        "--bits=1 --nodes=1000 --cache=4000",
        (
            "an age tells a value apart",
            DEADLINE,
            "req,a,0\nreq,b,5\n",
            "stopped: codes full at event 2, variable 0 (x), need 2\n",
            5,
        ),
    ),
    (
        "--bits=1 --nodes=1000 --cache=4000",
        (
            "until it is too old",
            DEADLINE,
            "req,a,0\ntick,20\nreq,b,21\nack,b,31\nack,b,32\n",
            "violation 5 t x=\"b\"\nevents 5 violations 1\n",
            1,
        ),
    ),
    (
        "--bits=8 --nodes=1000 --cache=4000 --limit=32",
        (
            "a limit within the third event",
            ACCESS,
            "login,ann\naccess,ann\naccess,bob\nlogout,ann\naccess,ann\n",
            "violation 3 access u=\"bob\"\nstopped: log longer than 32 bytes\n",
            4,
        ),
    ),
    (
        "--bits=8 --nodes=1000 --cache=4000 --all",
        (
            "true verdicts too",
            ACCESS,
            "access,bob\nlogin,ann\n",
            "violation 1 access u=\"bob\"\nholds 2 access\nevents 2 violations 1\n",
            1,
        ),
    ),
    (
        "--all --bits=8 --nodes=1000 --cache=4000",
        (
            "true verdicts among false ones",
            "prop r : P go prop s : forall x . ! went(x) prop t : stop",
            "go\nwent,a\nstop\n",
            "holds 1 r\nholds 1 s\nviolation 1 t\nholds 2 r\nviolation 2 s x=\"a\"\nviolation 2 t\n\
             holds 3 r\nholds 3 s\nholds 3 t\nevents 3 violations 3\n",
            1,
        ),
    ),
    (
        "--bits=8 --nodes=1000 --cache=4000 --all",
        (
            "true verdicts before a faulty record",
            "prop r : P go",
            "go\n\"a",
            "holds 1 r\nstopped: quote not closed at record 2\n",
            4,
        ),
    ),
    (
        "--bits=8 --nodes=1000 --cache=4000 --sample=7,6",
        (
            "a sample in place of a log",
            "prop a : forall u . access(u) -> P login(u) prop l : ! exists u . login(u) & @ true",
            "",
            "violation 5 l\nevents 6 violations 1\n",
            1,
        ),
    ),
    (
        "--bits=8 --nodes=1000 --cache=4000 --sample=7,6 --limit=20",
        (
            "a sample that is longer than its limit",
            "prop l : exists u . login(u)",
            "",
            "violation 2 l\nstopped: log longer than 20 bytes\n",
            4,
        ),
    ),
    (
        "--bits=8 --nodes=1000 --cache=4000 --sample=7,6",
        (
            "a sample with times",
            "prop l : P[<=4] exists u . login(u) prop m : P[<=1] exists u . login(u)",
            "",
            "violation 3 m\nviolation 4 m\nevents 6 violations 2\n",
            1,
        ),
    ),
];

pub const NAME_FAULTS: &[Case] = &[
    ("no property", "", "go\n", "stopped: no property\n", 3),
    (
        "a free variable",
        "prop f : p(x)",
        "go\n",
        "stopped: free variable in item 0 at node 0\n",
        3,
    ),
    (
        "a macro before its definition",
        "prop a : m(1) pred m(x) = p(x)",
        "go\n",
        "stopped: late macro in item 0 at node 0\n",
        3,
    ),
    (
        "a macro without its terms",
        "pred m(x) = p(x) prop a : ! m",
        "go\n",
        "stopped: wrong number of macro terms in item 1 at node 1\n",
        3,
    ),
    (
        "an atom of two arities",
        "prop a : p(1) & p",
        "go\n",
        "stopped: clash of arities in item 0 at node 2\n",
        3,
    ),
    (
        "a name given twice",
        "prop a : p prop b : q prop a : r",
        "go\n",
        "stopped: duplicate name in item 2\n",
        3,
    ),
    (
        "too many subformulas",
        "pred a(x) = p(x)&p(x) pred b(x) = a(x)&a(x) pred c(x) = b(x)&b(x) pred d(x) = c(x)&c(x) pred e(x) = d(x)&d(x) \
         pred f(x) = e(x)&e(x) pred g(x) = f(x)&f(x) pred h(x) = g(x)&g(x) pred i(x) = h(x)&h(x) pred j(x) = i(x)&i(x) \
         pred k(x) = j(x)&j(x) prop q : forall x . k(x)",
        "go\n",
        "stopped: too many subformulas, 6143\n",
        3,
    ),
];

pub const SPEC_FAULTS: &[Case] = &[
    (
        "an atom that isn't closed",
        "prop p : forall x . p(x",
        "go\n",
        "stopped: syntax at token 9\n",
        3,
    ),
    (
        "no token",
        "prop prop r : a ? b",
        "go\n",
        "stopped: no token at byte 16\n",
        3,
    ),
    (
        "a bound too large",
        "prop r : P[<=1048575] go)",
        "go\n",
        "stopped: bound too large at token 6\n",
        3,
    ),
];
