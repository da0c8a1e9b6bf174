// Tables that end within their header, which a load refuses before, and laws. Faults of modules and
// bodies are told by the rows of crates/acpicheck/rows.

use super::bodies::TABLE;
use aml_lex::LexCause;
use aml_tree::{
    Refusal, Span, TreeCause, TreeFault, bodies_are_unique, faults_stand_within,
    modules_are_unique, read_module,
};
use std::test::Fail;

/// No reader looks at the header's bytes, but they have to be there.
#[test]
fn short_tables(rt: HostRuntime) -> Result<(), Fail> {
    for cut in 0..36 {
        let truncated = Refusal {
            cause: TreeCause::Lexical(LexCause::Truncated),
            at: cut,
        };
        let fault = read_module(rt.alloc(), &TABLE[..cut]).err();
        assert_eq!(rt; fault, Some(TreeFault::Refused(truncated)));
    }
    assert!(rt; read_module(rt.alloc(), &TABLE[..36])?.is_empty());
    assert!(rt; !Span { at: 0, end: 37 }.is_within(&[0; 36]));
    Ok(())
}

/// Calls whose contracts are laws.
#[test]
fn laws() {
    modules_are_unique();
    bodies_are_unique();
    faults_stand_within();
}
