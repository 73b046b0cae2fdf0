//! HTTP/1.1 as a carrier of lines. A session of lines is fed the bodies of requests, and its replies are the bodies of the
//! responses. A question of JSON is the one line that it means, and a bulk of them is their lines.
#![tactic(auto)]

mod asked;
mod byte_tag;
mod codec;
mod counted_stream;
mod fault;
mod laws;
mod reading;
mod request_lines;
mod request_stream;
mod response;
mod write_buffer;

pub use asked::Asks;
pub use byte_tag::extended;
pub use codec::{CodecStage, Decoded, HttpCodec};
pub use fault::Fault;
pub use laws::{bulks_are_questions, questions_are_lines};
pub use response::write_refusal;
pub use write_buffer::WriteBuffer;
