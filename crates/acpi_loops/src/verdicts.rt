// Verdicts on the methods of a table, again and again.

use aml_namespace::{Host, Namespace};
use aml_signatures::Signatures;
use aml_verify::{Verdict, verify};
use std::alloc::Global;

/// How many methods are accepted, counted over once.
fn accepted(alloc: Global, namespace: &Namespace<'_>, signatures: &Signatures) -> Option<u64> {
    let checked = verify(alloc, namespace, signatures).ok()?;
    let mut count = 0u64;
    for id in namespace.methods() {
        if let Some(Verdict::Accepted(_)) = checked.verdict(*id) {
            count = count.wrapping_add(1);
        }
    }
    Some(count)
}

/// All methods of a DSDT, which is loaded once, are judged in each turn; how many are accepted,
/// summed up. None where it does not load, and where memory is wanted.
pub(crate) fn verify_again(alloc: Global, dsdt: &[u8], turns: u64) -> Option<u64> {
    let tables = [dsdt];
    let host = Host { os: b"", osi: &[] };
    let mut namespace = Namespace::load(alloc, &tables, host).ok()?;
    namespace.count_externals(alloc).ok()?;
    let signatures = Signatures::new(alloc);
    let mut sum = 0u64;
    for _ in 0..turns {
        sum = sum.wrapping_add(accepted(alloc, &namespace, &signatures)?);
    }
    Some(sum)
}
