// The listing of a refused case, for the gate: its third record has kind 9.
#![tactic(auto)]

fn main(rt: HostRuntime) {
    print_listing::print_listing(&rt);
}
