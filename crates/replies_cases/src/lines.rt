// Lines of output, and texts that are none.
use replies::answer::{Said, read_answer};
use std::process::Abort;

// A line says this.
fn says(rt: &impl Abort, line: &str, expected: Said) {
    assert_eq!(rt; read_answer(line.as_bytes()), Some(expected));
}

// A line is no answer.
fn is_none(rt: &impl Abort, line: &str) {
    assert_eq!(rt; read_answer(line.as_bytes()), None);
}

#[test]
fn answers(rt: HostRuntime) {
    says(&rt, "none", Said::Nothing);
    says(&rt, "427", Said::Number(427));
    says(&rt, "-5000", Said::Number(-5000));
    says(&rt, "rise 12", Said::Rise(12));
    says(&rt, "set 0", Said::Set(0));
    says(&rt, "1 2 3 4", Said::Span(1, 2, 3, 4));
    says(&rt, "-5000 12000 0 -1", Said::Span(-5000, 12000, 0, -1));
    says(&rt, "hidden", Said::Hidden);
}

#[test]
fn refusals(rt: HostRuntime) {
    says(
        &rt,
        "refused 3 at -1: the tick is not in the file",
        Said::Refused(3, -1),
    );
    says(
        &rt,
        "refused 5 at 2: the text cannot be read",
        Said::Refused(5, 2),
    );
}

#[test]
fn other_texts(rt: HostRuntime) {
    is_none(&rt, "");
    is_none(&rt, "rise");
    is_none(&rt, "rise x");
    is_none(&rt, "1 2 3");
    is_none(&rt, "1 2 3 4 5");
    is_none(&rt, "refused 3 at 5");
    is_none(&rt, "refused 3 at 5: ");
    is_none(&rt, "refused 3 at 5 the tick");
    is_none(&rt, "none none");
    is_none(&rt, "1.5");
    is_none(&rt, "seen 1.5");
}
