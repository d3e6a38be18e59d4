// Prints the page of the grid table on standard input, its columns' shares where `--widths` is
// given, or the refusal.
#![tactic(auto)]

fn main(rt: HostRuntime) {
    match input::read_choice(&rt, b"--widths") {
        Some(widths) => input::answer_sheet::<196608, _>(&rt, b"page", |sheet, out| {
            page_listing::print_page(widths, sheet, out)
        }),
        None => input::say_usage(&rt, b"page", b"--widths"),
    }
}
