// Runs further cases: `stdin` is a long file of random records of every style, `stdout` what the bench's second router printed for it.
//
// That router was written apart from these crates and searches in other ways. `bench cases` makes both files.
#![tactic(auto)]

fn main(rt: HostRuntime) {
    let mut source = rt.stdin();
    let mut sink = rt.stdout();
    printer::run(&mut source, &mut sink, &rt);
}
