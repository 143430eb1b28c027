//! The layout of a node and of a cached result in a word. The numbers are worked out by hand from
//! the places of the bits.

use crate::ends::same;
use eqc_tree::{Op, pack_cell, pack_node, unpack_cell, unpack_node};

#[test]
fn words_have_their_layout(rt: HostRuntime) {
    same(&rt, pack_node(0, 0, 1), 1, "a literal");
    same(&rt, pack_node(1, 2, 3), 1_099_513_724_931, "a node");
    same(&rt, unpack_node(0x0000_0100_0020_0003), (1, 2, 3), "parts");
    let cell = pack_cell(Op::And.tag(), 2, 2, 2);
    same(&rt, cell, 1_152_923_703_632_199_682, "a result");
    same(
        &rt,
        unpack_cell(0x1000_0200_0020_0002),
        (1, 2, 2, 2),
        "parts",
    );
    let all = (15, 1_048_575, 1_048_575, 1_048_575);
    same(&rt, unpack_cell(u64::MAX), all, "all bits");
}
