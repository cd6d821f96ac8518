// replay: makes every stored call of the eight blocks through the proved library, and says how many give something else than is stored.
#![tactic(auto)]

mod answer;
mod call;
mod compare;
mod form;
mod line;
mod list;
mod region;
mod report;

use region::Regions;

// The longest list has 156145 bytes, and the largest region of a moving average 262158 words.
fn main(rt: HostRuntime) {
    let mut bytes = [0u8; 262144];
    let mut region = [0u64; 262158];
    let mut expected = [0u64; 262158];
    let mut regions = Regions {
        region: &mut region,
        expected: &mut expected,
    };
    let total = list::replay_all(&rt, &mut bytes, &mut regions);
    report::print_total(&rt, total);
}
