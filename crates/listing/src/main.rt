// The listing program: reads a case on standard input and prints its table, or the refusal.
#![tactic(auto)]

fn main(rt: HostRuntime) {
    print_listing::print_listing(&rt);
}
