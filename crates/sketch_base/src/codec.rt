//! Reading and writing serialized sketches.

pub mod assert;
mod decode;
mod encode;
pub mod family;
mod item;

pub use self::decode::{Short, SketchSlice};
pub use self::encode::{SketchBytes, Stopped};
pub use self::item::{Item, Kind};
