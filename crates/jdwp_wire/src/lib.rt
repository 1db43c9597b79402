//! The bytes of the Java Debug Wire Protocol: the handshake, packets, the sizes of ids, and the trait of all data.
#![tactic(auto)]

mod basic;
mod data_fault;
mod error_code;
mod frame;
mod id_sizes;
pub mod laws;
mod limits;
mod no_memory;
pub mod number;
mod packet;
mod ring;
mod wire;
mod writing;

pub use data_fault::DataFault;
pub use error_code::ErrorCode;
pub use frame::{
    FrameFault, HANDSHAKE, HEADER_LENGTH, Next, NextHello, PACKET_LIMIT, next_hello, next_packet,
    next_packet_within,
};
pub use id_sizes::{BadSize, IdKind, IdSizes, Width};
pub use limits::{LEAST_PACKET_LIMIT, Limits, MOST_PACKET_LIMIT};
pub use no_memory::NoMemory;
pub use packet::{Header, PacketKind, PacketRef};
pub use ring::{Standing, next_hello_in, next_packet_in, next_packet_in_within, standing_in};
pub use wire::Wire;
pub use writing::all_or_nothing;
