// Document 01's kinds of words by their names: the ops that the code asks for, and the heads, constants and extras.

// A kind; its discriminant is the number of the documents.
#[derive(Clone, Copy, Debug, PartialEq, Eq, Hash)]
pub enum Kind {
    Const = 0,
    GetLocal = 1,
    SetLocal = 2,
    CmpGe = 19,
    If = 21,
    Else = 22,
    EndIf = 23,
    Loop = 24,
    EndLoop = 25,
    Break = 26,
    BreakIf = 27,
    Stream = 28,
    Reset = 29,
    Call = 30,
    Return = 31,
    Yield = 32,
    NewComposite = 34,
    GetIndex = 36,
    Len = 39,
    Trap = 50,
    CheckedAdd = 51,
    PopN = 58,
    CallVerifiedNative = 64,
    CallExternalNative = 65,
    Module = 199,
    Chunk = 200,
    Integer = 202,
    Other = 203,
    Extra = 204,
}

// The type of a chunk; the range of a Stream chunk lies between Stream and Reset.
#[derive(Clone, Copy, Debug, PartialEq, Eq, Hash)]
pub enum Mode {
    Func = 0,
    Reentrant = 1,
    Stream = 2,
}

// How many kinds of ops there are.
pub const KINDS: usize = 66;
