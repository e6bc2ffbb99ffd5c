// The program's words: six numbers.
use crate::keys::Method;
use crate::work::Plan;
use std::rt::Env;

// The most packets, and the most changes.
const MOST: u64 = 100000000000;

// What the words ask for: nothing where one is missing or no number, or where they can't be done.
pub(crate) fn plan(rt: &impl Env) -> Option<Plan> {
    let plan = Plan {
        method: Method::try_from(number(rt, 1)?).ok()?,
        servers: number(rt, 2)?,
        horizon: number(rt, 3)?,
        records: number(rt, 4)?,
        packets: number(rt, 5)?,
        changes: number(rt, 6)?,
    };
    fit(&plan).then_some(plan)
}

// Whether the words can be done: at least one server works, and only a server of the horizon goes to work.
fn fit(plan: &Plan) -> bool {
    plan.servers <= 64
        && plan.horizon < plan.servers
        && plan.records <= 3276
        && plan.packets <= MOST
        && plan.changes <= MOST
}

// The number that a word says.
fn number(rt: &impl Env, i: usize) -> Option<u64> {
    let mut word = [0u8; 16];
    let length = rt.arg(i, &mut word).ok()?;
    value(word.get(..length)?)
}

// The number that digits say.
fn value(digits: &[u8]) -> Option<u64> {
    if digits.is_empty() {
        return None;
    }
    digits.iter().try_fold(0u64, |value, digit| match digit {
        b'0'..=b'9' => value.checked_mul(10)?.checked_add(u64::from(*digit - b'0')),
        _ => None,
    })
}
