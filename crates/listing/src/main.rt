// Lists the grid table on standard input: its sizes, columns, rows and cells, or the refusal.
#![tactic(auto)]

fn main(rt: HostRuntime) {
    input::answer_only::<131072, _>(
        &rt,
        b"listing",
        |sheet, out| layout_listing::list(sheet, out),
    );
}
