// Reads records on standard input and prints their sheet.
#![tactic(auto)]

fn main(rt: HostRuntime) {
    let mut source = rt.stdin();
    let mut sink = rt.stdout();
    printer::run(&mut source, &mut sink, &rt);
}
