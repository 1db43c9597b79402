//! Worked frames, values, the table of commands, data in their layouts, event requests, and suspend counts, and a type of one's own that packets carry.
mod code_range_tests;
mod event_tests;
mod frame_tests;
mod happening_tests;
mod layout_tests;
mod level_tests;
mod request_tests;
mod ring_tests;
mod rows;
mod table_tests;
mod trace_tests;
mod value_tests;
mod wire_tests;
