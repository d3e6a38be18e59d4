// Prints the cells of the grid table on standard input, each with its place and its lines, or the refusal.
#![tactic(auto)]

fn main(rt: HostRuntime) {
    input::answer_only::<196608, _>(
        &rt,
        b"cells",
        |sheet, out| table_listing::list_cells(sheet, out),
    );
}
