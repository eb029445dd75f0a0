//! The lines of traces that declare two queues of the families 0 and 1, a buffer 0 of 64 bytes and an image
//! 1 of 3 mips with 4 layers.
pub const PLAIN: &str = r#"{"op":"queue","queue":0,"family":0,"lane":0}
{"op":"queue","queue":1,"family":1,"lane":1}
{"op":"buffer","res":0,"size":64}
{"op":"image","res":1,"mips":3,"layers":4}
"#;

/// The image is preinitialized.
pub const PREINITIALIZED: &str =
    r#"{"op":"image","res":1,"mips":3,"layers":4,"initial":"preinitialized"}
"#;

/// Both are concurrent.
pub const CONCURRENT: &str = r#"{"op":"queue","queue":0,"family":0,"lane":0}
{"op":"queue","queue":1,"family":1,"lane":1}
{"op":"buffer","res":0,"size":64,"sharing":"concurrent"}
{"op":"image","res":1,"mips":3,"layers":4,"sharing":"concurrent"}
"#;

/// The buffer alone.
pub const BUFFER: &str = r#"{"op":"queue","queue":0,"family":0,"lane":0}
{"op":"buffer","res":0,"size":64}
"#;
