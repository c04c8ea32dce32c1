//! Packets and control messages as bytes: one spelling each, and every other string of bytes is refused with the reason.
#![tactic(auto)]

mod bad;
mod control;
mod control_bytes;
mod control_kind;
mod law;
mod packet;
mod packet_bytes;
mod place;

pub use bad::{Bad, ControlFault};
pub use control::decode_control;
pub use control_bytes::{control_len, encode_control};
pub use law::{
    controls_are_read_back, faultless_bytes_are_controls, faultless_bytes_are_packets,
    packets_are_read_back,
};
pub use packet::{PacketRef, decode, own};
pub use packet_bytes::encode;
