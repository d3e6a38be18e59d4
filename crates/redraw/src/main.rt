// Prints the redrawing of the grid table on standard input, or the refusal.
#![tactic(auto)]

fn main(rt: HostRuntime) {
    input::answer_only::<131072, _>(
        &rt,
        b"redraw",
        |sheet, out| redraw_listing::print_redrawing(sheet, out),
    );
}
