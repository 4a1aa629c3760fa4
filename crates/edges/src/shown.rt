// What a value or a refusal reads as text.
ghost use Rattle.std.specs.Prelude.{◌≡◌, IfSome, IsErrAnd, OnOk};
ghost use Rattle.market.specs.Texts.{fault_text};

use market::fault::Fault;
use std::alloc::Global;
use std::fmt::Display;
use std::process::Abort;
use std::test::Fail;

// The heap goes with `rt`: what may stop a test is no allocator, and a pair of both would be made at each test.

/// A value reads so.
pub fn reads<T: Display + Drop>(
    rt: &impl Abort,
    heap: Global,
    value: T,
    text: &str,
) -> Result<(), Fail>
    ensures { OnOk result (IfSome (T.output value) (λ bytes. bytes ≡ text.now)) }
{
    assert_eq!(rt; value.to_string(heap)?.as_str(), text);
    Ok(())
}

/// A call is refused, and the refusal reads so.
pub fn is_refused<T: Drop>(
    rt: &impl Abort,
    heap: Global,
    outcome: Result<T, Fault>,
    text: &str,
) -> Result<(), Fail>
    ensures { OnOk result (IsErrAnd outcome (λ fault. fault_text fault ≡ text.now)) }
{
    let fault = outcome.err().ok_or("not refused")?;
    reads(rt, heap, fault, text)
}
