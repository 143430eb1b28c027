//! Covers of three to six columns, each in two ways: the first model has it as one cover, the
//! second as covers of two columns or by its rows for 0. The number of nodes is that of the store
//! in which both become one diagram. And the truth tables of covers.
#![tactic(auto)]

use crate::ends::holds;
use eqc_blif::read;
use eqc_cover::table::{MOST_COLUMNS, best_column, cofactor, cover_table, is_constant};
use eqc_pair_testing::{Ask, is_ordered_answer};
use eqc_testing::{Row, lines};
use std::alloc::{AllocError, Global};

/// Pairs of covers, how many nodes both take together, and an order of the inputs where it isn't
/// that of the text.
#[rattlefmt::skip]
static COVERS: &[Row<(&'static str, u32)>] = &[
    ("an exclusive or of three", ".model f;.inputs a b c;.outputs z;.names a b c z;100 1;010 1;001 1;111 1;.end;.model g;.inputs a b c;.outputs z;.names a b t;10 1;01 1;.names t c z;10 1;01 1;.end;", ("", 16)),
    ("its complement", ".model f;.inputs a b c;.outputs z;.names a b c z;000 1;110 1;101 1;011 1;.end;.model g;.inputs a b c;.outputs z;.names a b t;10 1;01 1;.names t c z;11 1;00 1;.end;", ("", 16)),
    ("a conjunction of four", ".model f;.inputs a b c d;.outputs z;.names a b c d z;1101 1;.end;.model g;.inputs a b c d;.outputs z;.names a b c d z;0--- 0;-0-- 0;--1- 0;---0 0;.end;", ("", 16)),
    ("the complement of a disjunction", ".model f;.inputs a b c d;.outputs z;.names a b c d z;0000 1;.end;.model g;.inputs a b c d;.outputs z;.names a b t;1- 1;-1 1;.names c d u;1- 1;-1 1;.names t u z;00 1;.end;", ("", 24)),
    ("a majority of three", ".model f;.inputs a b c;.outputs z;.names a b c z;11- 1;1-1 1;-11 1;.end;.model g;.inputs a b c;.outputs z;.names a b c z;00- 0;0-0 0;-00 0;.end;", ("", 16)),
    ("a majority that one column lowers", ".model f;.inputs a b c;.outputs z;.names a b c z;01- 1;0-1 1;-11 1;.end;.model g;.inputs a b c;.outputs z;.names a b c z;10- 0;1-0 0;-00 0;.end;", ("", 16)),
    ("a choice", ".model f;.inputs s a b;.outputs z;.names s a b z;11- 1;0-1 1;.end;.model g;.inputs s a b;.outputs z;.names s a b z;10- 0;0-0 0;.end;", ("b a s", 16)),
    ("whether two numbers of three bits are equal", ".model f;.inputs a b c d e f;.outputs z;.names a b c d e f z;000000 1;110000 1;001100 1;111100 1;000011 1;110011 1;001111 1;111111 1;.end;.model g;.inputs a b c d e f;.outputs z;.names a b t;11 1;00 1;.names c d u;11 1;00 1;.names e f v;11 1;00 1;.names t u v z;111 1;.end;", ("", 32)),
    ("a choice of one of four", ".model f;.inputs s t a b c d;.outputs z;.names s t a b c d z;001--- 1;01-1-- 1;10--1- 1;11---1 1;.end;.model g;.inputs s t a b c d;.outputs z;.names t a b u;01- 1;1-1 1;.names t c d v;01- 1;1-1 1;.names s u v z;01- 1;1-1 1;.end;", ("", 32)),
];

#[test]
fn covers_of_few_columns_take_few_nodes(rt: HostRuntime) {
    for (name, text, (order, nodes)) in COVERS {
        holds(
            &rt,
            is_ordered_answer(&rt, rt.alloc(), text, order, Ask::Output(0, *nodes), "none"),
            name,
        );
    }
}

/// Of a cover: its table, what is left of it where the first column is true and where it is false,
/// and whether it is constant; and the column at which it is best split.
type Tables = (u64, u64, u64, bool, Option<usize>);

/// Those of the one cover of a text, where that has at most so many columns as a table.
fn tables_of(alloc: Global, text: &[u8]) -> Option<Tables> {
    let library = read(alloc, text).ok()?;
    if library.models() == 0 {
        return None;
    }
    let cover = library.covers(0).first()?;
    let columns = cover.columns.len();
    if columns > MOST_COLUMNS {
        return None;
    }
    let table = cover_table(&cover.rows(), columns);
    Some((
        table,
        cofactor(table, 0, true),
        cofactor(table, 0, false),
        is_constant(table),
        best_column(table, columns, &[true; MOST_COLUMNS]),
    ))
}

/// Covers and their tables. The first column has the lowest bit of the place in a table.
#[rattlefmt::skip]
static TABLES: &[Row<Tables>] = &[
    ("a majority", ".names a b c z;11- 1;1-1 1;-11 1;", (0xe8e8_e8e8_e8e8_e8e8, 0xfcfc_fcfc_fcfc_fcfc, 0xc0c0_c0c0_c0c0_c0c0, false, Some(0))),
    ("an exclusive or", ".names a b z;10 1;01 1;", (0x6666_6666_6666_6666, 0x3333_3333_3333_3333, 0xcccc_cccc_cccc_cccc, false, Some(0))),
    ("a row for 0", ".names a b z;11 0;", (0x7777_7777_7777_7777, 0x3333_3333_3333_3333, 0xffff_ffff_ffff_ffff, false, Some(0))),
    ("a choice by the second column", ".names a s b z;11- 1;-01 1;", (0xb8b8_b8b8_b8b8_b8b8, 0xfcfc_fcfc_fcfc_fcfc, 0x3030_3030_3030_3030, false, Some(1))),
    ("no row and no column", ".names z;", (0, 0, 0, true, None)),
];

/// Whether the one cover of a text, in which `;` stands for LF, has these tables.
fn has_tables(alloc: Global, text: &str, wanted: Tables) -> Result<bool, AllocError> {
    let text = lines(alloc, text)?;
    Ok(tables_of(alloc, &text) == Some(wanted))
}

#[test]
fn covers_have_tables(rt: HostRuntime) {
    for (name, text, wanted) in TABLES {
        holds(&rt, has_tables(rt.alloc(), text, *wanted), name);
    }
}
