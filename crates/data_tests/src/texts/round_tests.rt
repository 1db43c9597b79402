//! Each layout's data, read as a text and printed by `show`, at several widths of ids.
use crate::asserts::expect_same;
use crate::captures::row_tests::sample_of;
use jdwp_layout::{Layout, layout_of, read};
use jdwp_show::composite_data_line;
use jdwp_text::{read_data, read_items};
use jdwp_wire::IdSizes;
use std::alloc::Global;
use std::process::Abort;

/// Data of the layout, read of their words and printed, are in these words again.
fn come_again(rt: &impl Abort, alloc: Global, layout: &Layout, sizes: &IdSizes) {
    let sample = sample_of(rt, alloc, layout, sizes);
    let text = sample.words.as_str();
    let bytes = read_data(alloc, layout, sizes, text).expect(rt, "data");
    expect_same(rt, &bytes, &sample.bytes);
    let items = read(alloc, layout, sizes, &bytes).expect(rt, "data that read");
    let line = composite_data_line(alloc, 0, &items).expect(rt, "memory");
    let wanted = format!(in alloc; "< 0 Event.Composite{text}").expect(rt, "memory");
    expect_same(rt, &line.as_str(), &wanted.as_str());
    let told = read_items(alloc, layout, sizes, text).expect(rt, "items");
    expect_same(rt, &told, &items);
}

/// How many rows have layouts, each of which comes again at these widths.
fn every_row(rt: &impl Abort, alloc: Global, sizes: &IdSizes) -> u32 {
    let mut rows = 0u32;
    for set in 0..65u8 {
        for number in 0..101u8 {
            if let Some(row) = layout_of(set, number)
                && let Some(layouts) = row.layouts
            {
                rows = rows.saturating_add(1);
                come_again(rt, alloc, &layouts.request, sizes);
                come_again(rt, alloc, &layouts.reply, sizes);
            }
        }
    }
    rows
}

#[test]
fn every_layout(rt: HostRuntime) {
    let wide = IdSizes::new(8, 8, 8, 8, 8).expect(&rt, "widths");
    expect_same(&rt, &every_row(&rt, rt.alloc(), &wide), &84);
    let narrow = IdSizes::new(1, 2, 3, 4, 5).expect(&rt, "widths");
    expect_same(&rt, &every_row(&rt, rt.alloc(), &narrow), &84);
}
