//! Values whose memory is refused: a list of durations, and a copy. The program `test_calls` prints the value of each
//! type of each kind, and the program `test_scripts` has durations at their limits.
ghost use Rattle.std.specs.Prelude.{◌≡◌, IfOk};
ghost use Rattle.cadence_value.specs.Values.{numbers_of};

use cadence_errors::ErrorKind;
use cadence_value::value::{MetricValue, ToTimerValue};
use std::alloc::{AllocError, Allocator, Global};
use std::test::Fail;
use std::time::Duration;
use test_tools::RefusingAllocator;

// Returns a copy of a value. Its contract is a law of copies: the copy has the same numbers.
fn copy_of<A: Allocator + Clone>(value: &MetricValue<A>) -> Result<MetricValue<A>, AllocError>
    ensures { IfOk result (λ copy. numbers_of copy ≡ numbers_of value.now) }
{
    value.clone()
}

// Returns why the conversion of two durations is refused, if it is. The heap refuses the request after `granted`
// others.
fn refusal_of(alloc: Global, granted: u64, second: u64) -> Result<Option<ErrorKind>, Fail> {
    let heap = RefusingAllocator::after(alloc, alloc, granted)?;
    let durations = vec![in heap; Duration::from_secs(1), Duration::from_secs(second)]?;
    match ToTimerValue::try_to_value(durations) {
        Ok(_) => Ok(None),
        Err(error) => Ok(Some(error.kind())),
    }
}

// The first request is for the list of durations, and the second is for the list of their numbers.
#[test]
fn a_list_of_durations_grows_once(rt: HostRuntime) -> Result<(), Fail> {
    for (granted, second, kind) in [
        (1, 2, Some(ErrorKind::OutOfMemory)),
        (1, u64::MAX, Some(ErrorKind::InvalidInput)),
        (2, 2, None),
    ] {
        assert!(rt; refusal_of(rt.alloc(), granted, second)? == kind);
    }
    Ok(())
}

// Returns a list of the numbers 1 and 2.
fn two_numbers(
    heap: RefusingAllocator<Global>,
) -> Result<MetricValue<RefusingAllocator<Global>>, AllocError> {
    Ok(MetricValue::PackedSigned(vec![in heap; 1i64, 2]?))
}

// Returns whether a copy of the list of 1 and 2 prints this text, or is refused if `text` is `None`. The heap refuses
// the request after `granted` others.
fn copy_prints(alloc: Global, granted: u64, text: Option<&str>) -> Result<bool, Fail> {
    let value = two_numbers(RefusingAllocator::after(alloc, alloc, granted)?)?;
    match copy_of(&value) {
        Ok(copy) => Ok(text == Some(copy.to_string(alloc)?.as_str())),
        Err(_) => Ok(text.is_none()),
    }
}

#[test]
fn a_copy_prints_the_same(rt: HostRuntime) -> Result<(), Fail> {
    for (granted, text) in [(1, None), (2, Some("1:2"))] {
        assert!(rt; copy_prints(rt.alloc(), granted, text)?);
    }
    let shown = format!(in rt.alloc(); "{:?}", MetricValue::<Global>::Signed(1))?;
    assert!(rt; !shown.is_empty());
    Ok(())
}
