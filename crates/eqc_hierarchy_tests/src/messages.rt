//! What errors on texts say, and which refusals tell that memory was refused.

use eqc_blif::{Key, Refusal};
use eqc_flat::{Fault, NameSet};
use eqc_pair::{Refused, Side};
use std::test::Fail;

#[test]
fn errors_say_what_happened(rt: HostRuntime) -> Result<(), Fail> {
    let latch = Refusal { line: 3, code: 4 };
    let open = Fault { code: 27 };
    let order = Refused {
        side: Side::Order,
        line: 0,
        code: 52,
    };
    let undriven = Refused {
        side: Side::Second,
        line: 0,
        code: 27,
    };
    let text = format!(in rt.alloc(); "{latch}; {open}; {order}; {undriven}")?;
    assert_eq!(rt;
        text.as_str(),
        "a latch (line 3, code 4); a signal without a driver (code 27); \
         order: a word twice in the order text (line 0, code 52); \
         second: a signal without a driver (line 0, code 27)"
    );
    Ok(())
}

#[test]
fn refused_memory_is_told_by_the_error(rt: HostRuntime) {
    assert!(rt; Refusal { line: 0, code: 72 }.is_memory());
    assert!(rt; !Refusal { line: 0, code: 13 }.is_memory());
    assert!(rt; Fault { code: 72 }.is_memory());
    assert!(rt; !Fault { code: 28 }.is_memory());
}

#[test]
fn a_set_has_each_name_once(rt: HostRuntime) -> Result<(), Fail> {
    let mut names = NameSet::new(rt.alloc(), Key::of(b"a b"));
    assert!(rt; names.insert_bytes(b"a")?);
    assert!(rt; names.insert_bytes(b"b")?);
    assert!(rt; !names.insert_bytes(b"a")?);
    assert_eq!(rt; names.position(b"b"), Some(1));
    assert_eq!(rt; names.position(b"c"), None);
    Ok(())
}
