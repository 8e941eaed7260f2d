//! Conversions against the rules that MDF has for them.
use crate::holds::holds;
use mdf_blocks::{PlacedText, Rule, bounds_of, keys_of, rule_of};
use measured_values::{Conversion, TextRow, TextTable};
use std::alloc::Global;
use std::process::Abort;

/// Rows of a table, by their least and greatest numbers.
type Rows = &'static [(f64, f64)];

/// Places, by least and greatest number and row.
type Places = &'static [(f64, f64, usize)];

fn row(rt: &impl Abort, alloc: Global, least: f64, greatest: f64) -> TextRow {
    TextRow {
        least,
        greatest,
        text: "text".to_owned(alloc).expect(rt, "memory"),
    }
}

fn table(rt: &impl Abort, alloc: Global, rows: Rows) -> Conversion {
    let mut table = Vec::new(alloc);
    for (least, greatest) in rows {
        let row = row(rt, alloc, *least, *greatest);
        table.push(row).expect(rt, "memory");
    }
    Conversion::Texts(TextTable {
        rows: table,
        other: None,
    })
}

/// That a place is this.
fn same_place(rt: &impl Abort, name: &str, place: &PlacedText, wanted: (f64, f64, usize)) {
    let (least, greatest, row) = wanted;
    holds(rt, place.least == least, name);
    holds(rt, place.greatest == greatest, name);
    holds(rt, place.row == row, name);
}

/// That places are these.
fn same(rt: &impl Abort, name: &str, places: &[PlacedText], wanted: Places) {
    holds(rt, places.len() == wanted.len(), name);
    for (place, wanted) in places.iter().zip(wanted) {
        same_place(rt, name, place, *wanted);
    }
}

/// Tables whose rows are one number each.
const VALUES: &[(&str, Rows, Places)] = &[
    (
        "rows that fall",
        &[(3.0, 3.0), (-1.0, -1.0), (2.0, 2.0)],
        &[(-1.0, -1.0, 1), (2.0, 2.0, 2), (3.0, 3.0, 0)],
    ),
    (
        "a number twice",
        &[(1.0, 1.0), (0.0, 0.0), (1.0, 1.0)],
        &[(0.0, 0.0, 1), (1.0, 1.0, 0)],
    ),
    ("no rows", &[], &[]),
];

/// Tables with ranges, of whole numbers.
const RANGES: &[(&str, Rows, Places)] = &[
    (
        "ranges that fall",
        &[(10.0, 19.0), (0.0, 9.0)],
        &[(0.0, 9.0, 1), (10.0, 19.0, 0)],
    ),
    (
        "a range within an earlier one",
        &[(0.0, 9.0), (3.0, 5.0), (12.0, 12.0)],
        &[(0.0, 9.0, 0), (12.0, 12.0, 2)],
    ),
    (
        "a range that is empty",
        &[(5.0, 4.0), (1.0, 2.0)],
        &[(1.0, 2.0, 1)],
    ),
];

/// Tables that MDF can't say.
const LOST: &[(&str, Rows)] = &[
    ("ranges that overlap", &[(0.0, 9.0), (5.0, 15.0)]),
    (
        "a range around an earlier number",
        &[(5.0, 5.0), (0.0, 9.0)],
    ),
];

/// The rule of the table of these rows.
fn rule(rt: &impl Abort, alloc: Global, rows: Rows, whole: bool) -> Rule {
    let table = table(rt, alloc, rows);
    rule_of(alloc, &table, whole).expect(rt, "memory")
}

/// That a rule has these places, each with one number.
fn has_values(rt: &impl Abort, name: &str, rule: &Rule, wanted: Places) {
    match rule {
        Rule::Values(places) => same(rt, name, places, wanted),
        _ => holds(rt, false, name),
    }
}

/// That a rule has these places, each with a range.
fn has_ranges(rt: &impl Abort, name: &str, rule: &Rule, wanted: Places) {
    match rule {
        Rule::Ranges(places) => same(rt, name, places, wanted),
        _ => holds(rt, false, name),
    }
}

#[test]
fn tables_of_texts_rise(rt: HostRuntime) {
    for (name, rows, wanted) in VALUES {
        let rule = rule(&rt, rt.alloc(), *rows, false);
        has_values(&rt, name, &rule, *wanted);
    }
    for (name, rows, wanted) in RANGES {
        let rule = rule(&rt, rt.alloc(), *rows, true);
        has_ranges(&rt, name, &rule, *wanted);
    }
}

/// That a rule says that a conversion is lost.
fn is_lost(rt: &impl Abort, name: &str, rule: &Rule) {
    holds(rt, matches!(rule, Rule::Lost), name);
}

#[test]
fn what_mdf_cannot_say_is_lost(rt: HostRuntime) {
    let alloc = rt.alloc();
    for (name, rows) in LOST {
        is_lost(&rt, name, &rule(&rt, alloc, *rows, true));
    }
    is_lost(&rt, "not whole", &rule(&rt, alloc, &[(0.0, 9.0)], false));
    let other = rule_of(alloc, &Conversion::Other, true);
    is_lost(&rt, "other", &other.expect(&rt, "memory"));
}

/// That a rule is linear with these numbers.
fn is_linear(rt: &impl Abort, rule: &Rule, wanted: [f64; 2]) {
    match rule {
        Rule::Linear(numbers) => holds(rt, *numbers == wanted, "linear"),
        _ => holds(rt, false, "linear"),
    }
}

/// That a rule is rational with these numbers.
fn is_rational(rt: &impl Abort, rule: &Rule, wanted: [f64; 6]) {
    match rule {
        Rule::Rational(numbers) => holds(rt, *numbers == wanted, "rational"),
        _ => holds(rt, false, "rational"),
    }
}

#[test]
fn numbers_stand_where_mdf_has_them(rt: HostRuntime) {
    let linear = Conversion::Linear {
        factor: 0.5,
        offset: -40.0,
    };
    let rule = rule_of(rt.alloc(), &linear, true).expect(&rt, "memory");
    is_linear(&rt, &rule, [-40.0, 0.5]);
    let rational = Conversion::Rational {
        b: 2.0,
        c: 3.0,
        f: 4.0,
    };
    let rule = rule_of(rt.alloc(), &rational, true).expect(&rt, "memory");
    is_rational(&rt, &rule, [0.0, 4.0, -3.0, 0.0, 0.0, 2.0]);
}

/// Places of ranges that rise.
const TWO_PLACES: &[PlacedText] = &[
    PlacedText {
        least: 0.0,
        greatest: 9.0,
        row: 1,
    },
    PlacedText {
        least: 10.0,
        greatest: 19.0,
        row: 0,
    },
];

#[test]
fn keys_and_bounds_stand_where_mdf_has_them(rt: HostRuntime) {
    let keys = keys_of(rt.alloc(), TWO_PLACES).expect(&rt, "memory");
    let wanted: &[f64] = &[0.0, 10.0];
    holds(&rt, keys.as_slice() == wanted, "keys");
    let bounds = bounds_of(rt.alloc(), TWO_PLACES).expect(&rt, "memory");
    let wanted: &[f64] = &[0.0, 9.0, 10.0, 19.0];
    holds(&rt, bounds.as_slice() == wanted, "bounds");
}
