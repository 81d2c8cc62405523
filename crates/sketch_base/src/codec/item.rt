//! Numbers in the forms in which serialized sketches store them.

ghost use Rattle.std.specs.Prelude.{◌≡◌};
ghost use Rattle.sketch_base.specs.Items.{item_kind, width};

/// A number with its form in bytes: the width in bits, whether it is signed, and the byte order if
/// there are several bytes, with the lowest first (`Le`) or the highest first (`Be`).
#[derive(Clone, Copy, Debug, PartialEq, Eq)]
pub enum Item {
    U8(u8),
    I8(i8),
    U16Le(u16),
    U16Be(u16),
    I16Le(i16),
    I16Be(i16),
    U32Le(u32),
    U32Be(u32),
    I32Le(i32),
    I32Be(i32),
    U64Le(u64),
    U64Be(u64),
    I64Le(i64),
    I64Be(i64),
}

/// The form of an item, without its number.
#[derive(Clone, Copy, Debug, PartialEq, Eq)]
pub enum Kind {
    U8,
    I8,
    U16Le,
    U16Be,
    I16Le,
    I16Be,
    U32Le,
    U32Be,
    I32Le,
    I32Be,
    U64Le,
    U64Be,
    I64Le,
    I64Be,
}

impl Item {
    /// The form of the item.
    pub fn kind(&self) -> Kind
        ensures { result ≡ item_kind self.now }
    {
        match self {
            Item::U8(_) => Kind::U8,
            Item::I8(_) => Kind::I8,
            Item::U16Le(_) => Kind::U16Le,
            Item::U16Be(_) => Kind::U16Be,
            Item::I16Le(_) => Kind::I16Le,
            Item::I16Be(_) => Kind::I16Be,
            Item::U32Le(_) => Kind::U32Le,
            Item::U32Be(_) => Kind::U32Be,
            Item::I32Le(_) => Kind::I32Le,
            Item::I32Be(_) => Kind::I32Be,
            Item::U64Le(_) => Kind::U64Le,
            Item::U64Be(_) => Kind::U64Be,
            Item::I64Le(_) => Kind::I64Le,
            Item::I64Be(_) => Kind::I64Be,
        }
    }
}

impl Kind {
    /// How many bytes an item of this kind has: 1, 2, 4 or 8.
    pub fn width(&self) -> usize
        ensures { result ≡ width self.now }
    {
        match self {
            Kind::U8 | Kind::I8 => 1,
            Kind::U16Le | Kind::U16Be | Kind::I16Le | Kind::I16Be => 2,
            Kind::U32Le | Kind::U32Be | Kind::I32Le | Kind::I32Be => 4,
            Kind::U64Le | Kind::U64Be | Kind::I64Le | Kind::I64Be => 8,
        }
    }
}
