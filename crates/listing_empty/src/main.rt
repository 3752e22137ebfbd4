// The listing of the case with R 0 and n 0, for the gate.
#![tactic(auto)]

fn main(rt: HostRuntime) {
    print_listing::print_listing(&rt);
}
