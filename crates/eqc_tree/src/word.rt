//! The layout of a node and of a cached result in one `u64`.

ghost use Rattle.std.specs.Prelude.{◌≡◌, ℕ, ◌^◌, ◌<◌};
ghost use Rattle.eqc_tree.specs.Word.{node_word, node_variable, node_low, node_high, cell_word, cell_tag, cell_first, cell_second, cell_result};

const NUMBERS: u64 = 0x10_0000;

const VARIABLES: u64 = 0x1_0000;

const NODE_VARIABLE: u64 = 0x100_0000_0000;

const CELL_TAG: u64 = 0x1000_0000_0000_0000;

/// The word of a node: `var` in bits 40 to 55, `lo` in 20 to 39, `hi` in 0 to 19.
///
/// `lo` and `hi` are node numbers, below 2^20.
pub fn pack_node(var: u16, lo: u32, hi: u32) -> u64
    requires lo { lo < 2 ^ 20 }
    requires hi { hi < 2 ^ 20 }
    ensures { result ≡ node_word var lo hi }
{
    var as u64 * NODE_VARIABLE + lo as u64 * NUMBERS + hi as u64
}

/// The variable, the low and the high child in the word of a node. Bits 56 to 63 are not read.
pub fn unpack_node(word: u64) -> (u16, u32, u32)
    ensures fields { result ≡ (node_variable word, node_low word, node_high word) }
    ensures packed { (v l h : ℕ) → v < 2 ^ 16 → l < 2 ^ 20 → h < 2 ^ 20 → word ≡ node_word v l h → result ≡ (v, l, h) }
{
    let variable = word / NODE_VARIABLE % VARIABLES;
    let low = word / NUMBERS % NUMBERS;
    let high = word % NUMBERS;
    (variable as u16, low as u32, high as u32)
}

/// The word of a cached result: `tag` in bits 60 to 63, `f` in 40 to 59, `g` in 20 to 39, `r` in
/// 0 to 19.
///
/// `tag` is below 16; `f`, `g` and `r` are node numbers, below 2^20.
pub fn pack_cell(tag: u8, f: u32, g: u32, r: u32) -> u64
    requires tag { tag < 2 ^ 4 }
    requires f { f < 2 ^ 20 }
    requires g { g < 2 ^ 20 }
    requires r { r < 2 ^ 20 }
    ensures { result ≡ cell_word tag f g r }
{
    tag as u64 * CELL_TAG + f as u64 * NODE_VARIABLE + g as u64 * NUMBERS + r as u64
}

/// The tag, the two operands and the result in the word of a cached result.
pub fn unpack_cell(word: u64) -> (u8, u32, u32, u32)
    ensures fields { result ≡ (cell_tag word, cell_first word, cell_second word, cell_result word) }
    ensures packed { (t f g r : ℕ) → t < 2 ^ 4 → f < 2 ^ 20 → g < 2 ^ 20 → r < 2 ^ 20 → word ≡ cell_word t f g r → result ≡ (t, f, g, r) }
{
    let tag = word / CELL_TAG;
    let first = word / NODE_VARIABLE % NUMBERS;
    let second = word / NUMBERS % NUMBERS;
    let found = word % NUMBERS;
    (tag as u8, first as u32, second as u32, found as u32)
}
