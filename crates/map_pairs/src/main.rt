// The program that wants pairs of cells: `program_folder::map` with them.
#![tactic(auto)]

fn main(rt: HostRuntime) {
    program_folder::map(&rt, "map_pairs", true);
}
