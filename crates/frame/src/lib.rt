// The frame layer: bytes to header and commands, and back. What stands here is what the layer promises;
// the sign layer and the gateway use these calls and no others of header, body, reading, forms and writing.
#![tactic(auto)]

// Reading a frame, block by block.
pub use body::reader::{Reader, open_at, step, step_from};
pub use body::{BlockStep, Placed};
pub use reading::reading::read;
pub use reading::{Read, Refusal};

// The same without a room, of a frame that is not printable.
pub use reading::reading::{is_printable, read_bare};

// The sum of a block, the fit of a header to a board, whether it asks for a first start, and the types that a board may have.
pub use body::sum::checksum;
pub use header::addressing::{addressed, is_own_type, starts};

// Writing a one-command frame, putting a frame into another form, joining two frames.
pub use writing::joining::join;
pub use writing::reforming::reform;
pub use writing::{Written, write};
