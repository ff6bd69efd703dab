// For measurement alone: the equal ranges of `fields`, lent to C so that host/bench can time them. No part of the product.
#![tactic(auto)]

ghost use Rattle.probe.specs.Equal.{Tells};

// Whether the two slices hold the same bytes.
#[unsafe(no_mangle)]
pub extern "C" fn probe_same(a: &[u8], b: &[u8]) -> bool
    ensures { Tells a.now b.now result }
{
    let n = a.len();
    if n != b.len() {
        return false;
    }
    fields::same_range(n as u64, a, 0, b, 0)
}
