//! Texts are completed: each ending, with as many units as it takes and with one fewer; and order
//! texts are read and refused.
use ari_text::{AriFault, read_problem};
use completion_text::{CompletionAnswer, OrderRefused, complete_texts, read_order};
use std::alloc::Global;
use std::test::*;
use trs_core::OutOfMemory;

const SQUARE: &[u8] = b"(format TRS)\n(fun f 1)\n(fun g 1)\n(rule (f (f x)) (g x))\n";

const SQUARE_ORDER: &[u8] = b"(order (sym f 1) (sym g 0))";

const SQUARE_COMPLETE: &[u8] =
    b"COMPLETE\n(format TRS)\n(fun f 1)\n(fun g 1)\n(rule (f (f _0)) (g _0))\n(rule (f (g _0)) (g (f _0)))\n";

const COMMUTES: &[u8] = b"(format TRS)\n(fun + 2)\n(rule (+ x y) (+ y x))\n";

// Two left sides whose most general instance has more than 2^17 nodes.
const EXPLODING: &[u8] = b"(format TRS) (fun H 28) (fun P 2) (fun 1 0) (fun 2 0)
(rule (H b c d e f g h i j k l m n o b c d e f g h i j k l m n o) 1)
(rule (H b c d e f g h i j k l m n o
(P a a) (P b b) (P c c) (P d d) (P e e) (P f f) (P g g)
(P h h) (P i i) (P j j) (P k k) (P l l) (P m m) (P n n)) 2)";

const EXPLODING_ORDER: &[u8] = b"(order (sym H 1) (sym P 0) (sym 1 0) (sym 2 0))";

// What is answered for both texts.
fn answer(
    alloc: Global,
    problem: &[u8],
    order: &[u8],
    budget: u64,
) -> Result<CompletionAnswer, Fail> {
    if problem.len() > 2_000 || order.len() > 2_000 {
        return Err(OutOfMemory.into());
    }
    Ok(complete_texts(alloc, problem, order, budget)?)
}

// Whether completion ends with this text.
fn ends(
    alloc: Global,
    problem: &[u8],
    order: &[u8],
    budget: u64,
    wanted: &[u8],
) -> Result<bool, Fail> {
    match answer(alloc, problem, order, budget)? {
        CompletionAnswer::Ended(text) => Ok(text.as_slice() == wanted),
        _ => Ok(false),
    }
}

#[test]
fn a_square_takes_five_units(rt: HostRuntime) -> Result<(), Fail> {
    let alloc = rt.alloc();
    assert!(rt; ends(alloc, SQUARE, SQUARE_ORDER, 5, SQUARE_COMPLETE)?);
    assert!(rt; ends(alloc, SQUARE, SQUARE_ORDER, 4, b"SPENT\n")?);
    Ok(())
}

#[test]
fn no_order_takes_no_unit(rt: HostRuntime) -> Result<(), Fail> {
    let wanted = b"UNORIENTABLE (+ _0 _1) (+ _1 _0)\n";
    assert!(rt; ends(rt.alloc(), COMMUTES, b"(order (sym + 7))", 0, wanted)?);
    Ok(())
}

#[test]
fn large_peaks_take_no_unit(rt: HostRuntime) -> Result<(), Fail> {
    let alloc = rt.alloc();
    assert!(rt; ends(alloc, EXPLODING, EXPLODING_ORDER, 2, b"LIMIT\n")?);
    assert!(rt; ends(alloc, EXPLODING, EXPLODING_ORDER, 1, b"SPENT\n")?);
    Ok(())
}

#[test]
fn texts_are_refused(rt: HostRuntime) -> Result<(), Fail> {
    let found = answer(rt.alloc(), b"", b"(", 5)?;
    assert!(rt; matches!(found, CompletionAnswer::ProblemRefused(AriFault::NoFormat)));
    let found = answer(rt.alloc(), SQUARE, b"(", 5)?;
    assert!(rt; matches!(found, CompletionAnswer::OrderRefused(0)));
    Ok(())
}

// Why an order text about the symbols of the square is refused, if it is.
fn refusal(alloc: Global, order: &[u8]) -> Result<Option<OrderRefused>, Fail> {
    if order.len() > 2_000 {
        return Err(OutOfMemory.into());
    }
    let system = read_problem(alloc, SQUARE)?;
    Ok(read_order(alloc, &system, order).err())
}

const ORDERS: [(&[u8], Option<OrderRefused>); 3] = [
    (b"(order (sym f 9223372036854775807) (sym g 0))", None),
    (
        b"(order (sym f 9223372036854775808) (sym g 0))",
        Some(OrderRefused::At(14)),
    ),
    (b"(order (sym f 1))", Some(OrderRefused::At(0))),
];

#[test]
fn orders_are_read_or_refused(rt: HostRuntime) -> Result<(), Fail> {
    for (order, wanted) in &ORDERS {
        assert!(rt; refusal(rt.alloc(), order)? == *wanted);
    }
    Ok(())
}
