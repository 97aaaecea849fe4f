// Operations.

/// An operation of a row. A text or a name is told by its place in the table of the row, a place of a jump by how many
/// operations are left there.
#[derive(Clone, Copy)]
pub enum Op {
    /// A statement begins.
    Step,
    /// The text at this place is put on the operands.
    Text(u32),
    /// `true` or `false` is put on the operands.
    Truth(bool),
    /// `undefined` is put on the operands.
    Undefined,
    /// The URL of the module is put on the operands.
    Url,
    /// The value of a name of the function is put on the operands: its place, and its name's place in the table.
    Local(u32, u32),
    /// The value of a name that the module itself declares is put on the operands: its place there.
    Own(u32),
    /// The value of another name is put on the operands.
    Name(u32),
    /// `||`: where the value on top is true (ToBoolean), it stays, and so many operations are left; else it goes.
    OrElse(u32),
    /// `&&`: where the value on top is false, it stays, and so many operations are left; else it goes.
    AndAlso(u32),
    /// The two values on top become what `===` (true) or `!==` (false) gives.
    Compare(bool),
    /// The two values on top become what `+` gives.
    Add,
    /// The value on top becomes what `!` gives.
    Not,
    /// The member with this name of the value on top takes its place.
    Member(u32),
    /// A callee is called with so many arguments, which stand above it.
    Call(u32),
    /// So many values from the top are printed by `print`, whose value takes their place.
    Print(u32),
    /// The error that `new Error` makes of the value on top takes its place.
    NewError,
    /// An `import()` of the value on top begins: its promise takes the place.
    Import,
    /// The value on top goes.
    Drop,
    /// A declaration gives a name of the function, by its place, the value on top.
    SetLocal(u32),
    /// A declaration gives a name of the module the value on top.
    SetName(u32),
    /// The value on top is written to a name of the function: its place, and its name's place in the table.
    WriteLocal(u32, u32),
    /// The same of a constant, which throws.
    WriteConstant(u32, u32),
    /// The value on top is written to another name.
    WriteName(u32),
    /// The value on top is thrown.
    Throw,
    /// The value on top is returned.
    Return,
    /// The value on top is printed, behind an await.
    PrintAwaited,
    /// The value on top is awaited.
    Await,
    /// The value on top goes; where it was false, so many operations are left.
    Choose(u32),
    /// So many names begin, unset.
    Enter(u32),
    /// So many names go, and so many operations are left.
    Leave(u32, u32),
    /// So many names begin, unset, and until `EndTry` a throw leads to where so many operations are left.
    Try(u32, u32),
    /// So many names go, the last `Try` leads a throw no longer, and so many operations are left.
    EndTry(u32, u32),
    /// A handler begins that names what was thrown, with so many further names.
    Caught(u32),
    /// A handler begins that doesn't.
    CaughtUnnamed(u32),
    /// The function ends.
    End,
}
