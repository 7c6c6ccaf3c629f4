//! Reads plans, which say how many lines each packet has, and tests whether they are the plans that are made.
use cadence::schedule::{check_plan, plan_packets};
use cadence::{ErrorKind, MetricError, MetricResult};
use std::alloc::Global;

fn malformed_plan() -> MetricError {
    MetricError::from((ErrorKind::InvalidInput, "no plan"))
}

// Reads a number.
fn parse_number(word: &str) -> MetricResult<usize> {
    word.trim().parse().map_err(|_| malformed_plan())
}

// Reads the numbers of a field, which spaces separate.
fn parse_numbers(alloc: Global, field: &str) -> MetricResult<Vec<usize>> {
    let mut numbers = Vec::new(alloc);
    for word in field.split_whitespace() {
        numbers.push(parse_number(word)?)?;
    }
    Ok(numbers)
}

/// Reads `CAPACITY; SIZES; MARKS; PLAN; ANSWER`. Compares the answer, `yes` or `no`, with what `check_plan` returns,
/// and with whether `plan_packets` makes this plan. Returns which of the two differs, or `None` if neither does.
pub fn plan_difference(alloc: Global, line: &str) -> MetricResult<Option<&'static str>> {
    let mut fields = line.split(';');
    let mut next = || fields.next().ok_or(malformed_plan());
    let capacity = parse_number(next()?)?;
    let sizes = parse_numbers(alloc, next()?)?;
    let marks = parse_numbers(alloc, next()?)?;
    let plan = parse_numbers(alloc, next()?)?;
    let wanted = next()?.trim() == "yes";
    if check_plan(&sizes, capacity, &marks, &plan) != wanted {
        return Ok(Some("is judged otherwise"));
    }
    if (plan_packets(alloc, &sizes, capacity, &marks)? == plan) != wanted {
        return Ok(Some("is not what is made"));
    }
    Ok(None)
}
