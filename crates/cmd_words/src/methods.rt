/// The words that may follow a name and a dot.
#[derive(Clone, Copy)]
pub enum Method {
    Set,
    Get,
    Place,
    Lift,
    ColumnConfig,
    RowConfig,
    Link,
    Unlink,
    Bind,
    Unbind,
    Open,
    Close,
    Top,
    Mode,
    Admit,
    Leave,
    Frame,
    Drop,
}
