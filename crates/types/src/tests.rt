//! Sets, chains and fits, with expectations made by hand.

use crate::closures::Closure;
use crate::edges::Edge;
use crate::sets::TypeSet;
use std::process::Abort;

/// The edge from a type to a supertype.
fn edge(subtype: u32, supertype: u32) -> Edge {
    Edge { subtype, supertype }
}

/// A set of types, another, and whether the first fits the second.
#[derive(Clone, Copy)]
struct Case(u32, u32, bool);

/// Checks the cases in order.
fn check_cases(rt: &impl Abort, edges: &[Edge], cases: &[Case]) {
    let closure = Closure::of(edges);
    for case in cases {
        let types = TypeSet { mask: case.0 };
        let others = TypeSet { mask: case.1 };
        assert_eq!(rt; closure.types_fit(types, others), case.2);
    }
}

#[test]
fn types_fit_themselves_and_what_they_lead_to(rt: HostRuntime) {
    check_cases(
        &rt,
        &[edge(1, 0), edge(2, 0), edge(3, 2)],
        &[
            Case(0b1000, 0b1000, true),
            Case(0b1000, 0b0100, true),
            Case(0b1000, 0b0001, true),
            Case(0b0100, 0b1000, false),
            Case(0b0010, 0b0100, false),
            Case(0b1010, 0b0001, true),
            Case(0b1010, 0b0110, true),
            Case(0b1010, 0b0100, false),
            Case(0, 0b0100, true),
            Case(0b1000, 0, false),
        ],
    );
}

#[test]
fn chains_by_edges_in_any_order(rt: HostRuntime) {
    let cases = [Case(1 << 31, 1, true), Case(1, 1 << 31, false)];
    check_cases(
        &rt,
        &[edge(31, 7), edge(7, 30), edge(30, 1), edge(1, 0)],
        &cases,
    );
    check_cases(
        &rt,
        &[
            edge(1, 0),
            edge(30, 1),
            edge(7, 30),
            edge(31, 7),
            edge(7, 30),
        ],
        &cases,
    );
}

#[test]
fn a_ring_leads_to_its_own_types_only(rt: HostRuntime) {
    check_cases(
        &rt,
        &[edge(1, 2), edge(2, 3), edge(3, 1), edge(4, 0)],
        &[
            Case(0b00010, 0b01000, true),
            Case(0b01110, 0b00100, true),
            Case(0b00010, 0b00001, false),
        ],
    );
}

#[test]
fn an_end_that_is_no_type_leads_nowhere(rt: HostRuntime) {
    check_cases(
        &rt,
        &[edge(1, 40), edge(40, 2), edge(3, 32), edge(32, 3)],
        &[Case(0b0010, 0b0100, false), Case(0b1000, 0b1000, true)],
    );
}

#[test]
fn declared_sets(rt: HostRuntime) {
    let cases = [
        Case(0, 4, false),
        Case(0b1000, 4, true),
        Case(0b1000, 3, false),
        Case(0b1001, 3, false),
        Case(1 << 31, 32, true),
        Case(1 << 31, 31, false),
        Case(u32::MAX, 40, true),
    ];
    for case in &cases {
        assert_eq!(rt; TypeSet { mask: case.0 }.is_declared(case.1), case.2);
    }
}
