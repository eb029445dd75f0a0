//! Lines of several texts.
pub const QUEUE: &str = r#"{"op":"queue","queue":0,"family":0,"lane":0}"#;

pub const QUEUE_1: &str = r#"{"op":"queue","queue":1,"family":0,"lane":1}"#;

pub const BUFFER: &str = r#"{"op":"buffer","res":0,"size":64}"#;

pub const IMAGE: &str = r#"{"op":"image","res":1,"mips":1,"layers":1}"#;

pub const EVENT: &str = r#"{"op":"event","event":0}"#;

pub const FENCE: &str = r#"{"op":"fence","fence":0}"#;

pub const BEGIN: &str = r#"{"op":"begin","rec":0,"recorder":0,"family":0}"#;

pub const BEGIN_1: &str = r#"{"op":"begin","rec":1,"recorder":1,"family":0}"#;

pub const END: &str = r#"{"op":"end","rec":0}"#;

pub const END_1: &str = r#"{"op":"end","rec":1}"#;

pub const SUBMIT: &str = r#"{"op":"submit","lane":0,"queue":0,"batches":[{"recs":[0]}]}"#;

pub const COPY_WRITES: &str =
    r#"{"op":"work","rec":0,"accesses":[{"res":0,"stage":"copy","access":"transfer_write","start":0,"end":16}]}"#;

pub const COPY_READS: &str =
    r#"{"op":"work","rec":0,"accesses":[{"res":0,"stage":"copy","access":"transfer_read","start":0,"end":16}]}"#;

pub const COPY_READS_IN_1: &str =
    r#"{"op":"work","rec":1,"accesses":[{"res":0,"stage":"copy","access":"transfer_read","start":0,"end":16}]}"#;
