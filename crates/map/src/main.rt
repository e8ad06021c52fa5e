// The program: `cells.txt`, `graph.aag` and `arrivals.txt` of the current folder mapped, the netlist or one line of `refused`, number and place printed.
#![tactic(auto)]

fn main(rt: HostRuntime) {
    program_folder::map(&rt, "map", false);
}
