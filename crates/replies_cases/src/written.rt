// Orders, answers and refusals as text, and the words of a line.
use crossing::event::{Crossing, Event};
use height::refusal::Refusal;
use std::alloc::Global;
use std::process::Abort;
use std::test::Fail;
use text::answer::{put_part, put_refusal, put_table};
use text::order::{Order, read_order};
use text::written::put_order;
use words::split::Words;

// An order is written so, and read again.
fn order(rt: &impl Abort, heap: Global, order: Order, expected: &str) -> Result<(), Fail> {
    let mut out = String::new(heap);
    put_order(&mut out, order)?;
    assert_eq!(rt; out.as_str(), expected);
    assert_eq!(rt; read_order(expected.as_bytes()), Some(order));
    Ok(())
}

// A refusal is written so.
fn refusal(rt: &impl Abort, heap: Global, refusal: Refusal, expected: &str) -> Result<(), Fail> {
    let mut out = String::new(heap);
    put_refusal(&mut out, refusal)?;
    assert_eq!(rt; out.as_str(), expected);
    Ok(())
}

#[test]
fn orders(rt: HostRuntime) -> Result<(), Fail> {
    let heap = rt.alloc();
    order(&rt, heap, Order::Line(-12), "line -12")?;
    order(&rt, heap, Order::First(Event::Above, 7), "above 7")?;
    order(&rt, heap, Order::First(Event::Rise, 0), "rise 0")?;
    order(&rt, heap, Order::First(Event::Set, 1024), "set 1024")?;
    order(&rt, heap, Order::Height(5), "height 5")?;
    order(&rt, heap, Order::Spans(2, 3), "spans 2 3")?;
    order(&rt, heap, Order::Table(0), "table 0")?;
    order(&rt, heap, Order::Tables, "table")
}

#[test]
fn refusals(rt: HostRuntime) -> Result<(), Fail> {
    let heap = rt.alloc();
    refusal(
        &rt,
        heap,
        Refusal::File(3),
        "refused 1 at 3: the file is not 1 to 4096 spans of four numbers within 16777216\n",
    )?;
    refusal(
        &rt,
        heap,
        Refusal::Line,
        "refused 2 at 0: the line is beyond 16777216\n",
    )?;
    refusal(
        &rt,
        heap,
        Refusal::Tick(-1),
        "refused 3 at -1: the tick is not in the file\n",
    )?;
    refusal(
        &rt,
        heap,
        Refusal::Asked(9),
        "refused 4 at 9: something else is asked for than above, rise or set\n",
    )?;
    refusal(
        &rt,
        heap,
        Refusal::Text(2),
        "refused 5 at 2: the text cannot be read\n",
    )
}

#[test]
fn tables(rt: HostRuntime) -> Result<(), Fail> {
    let heap = rt.alloc();
    let mut out = String::new(heap);
    put_table(&mut out, &[])?;
    let rising = Crossing {
        tick: 512,
        rises: true,
    };
    let setting = Crossing {
        tick: 513,
        rises: false,
    };
    put_table(&mut out, &[rising, setting])?;
    assert_eq!(rt; out.as_str(), "none\nrise 512\nset 513\n");
    Ok(())
}

#[test]
fn parts(rt: HostRuntime) -> Result<(), Fail> {
    let heap = rt.alloc();
    let mut out = String::new(heap);
    put_part(&mut out, &[])?;
    put_part(&mut out, &[-1, 4, -4, 0, 5, 6, 7, 8])?;
    assert_eq!(rt; out.as_str(), "none\n-1 4 -4 0\n5 6 7 8\n");
    Ok(())
}

#[test]
fn words(rt: HostRuntime) {
    let mut words = Words::new(b" rise\t 12  ");
    assert_eq!(rt; words.next(), Some(b"rise".as_slice()));
    assert_eq!(rt; words.next(), Some(b"12".as_slice()));
    assert_eq!(rt; words.next(), None);
    assert_eq!(rt; words.next(), None);
    assert_eq!(rt; Words::new(b" \t").next(), None);
}
