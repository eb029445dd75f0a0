//! Rows of bits: what each stage or access brings to a scope.

/// For each stage itself and the logically earlier ones.
pub(crate) static EARLIER: [u64; 17] = [
    0x1, // draw_indirect
    0x3, // index_input
    0x7, // vertex_attribute_input
    0xf, // vertex_shader
    0x1f, // tessellation_control_shader
    0x3f, // tessellation_evaluation_shader
    0x7f, // geometry_shader
    0xff, // early_fragment_tests
    0x1ff, // fragment_shader
    0x3ff, // late_fragment_tests
    0x7ff, // color_attachment_output
    0x801, // compute_shader
    0x1000, // copy
    0x2000, // resolve
    0x4000, // blit
    0x8000, // clear
    0x10000, // host
];

/// For each stage itself and the logically later ones.
pub(crate) static LATER: [u64; 17] = [
    0xfff, // draw_indirect
    0x7fe, // index_input
    0x7fc, // vertex_attribute_input
    0x7f8, // vertex_shader
    0x7f0, // tessellation_control_shader
    0x7e0, // tessellation_evaluation_shader
    0x7c0, // geometry_shader
    0x780, // early_fragment_tests
    0x700, // fragment_shader
    0x600, // late_fragment_tests
    0x400, // color_attachment_output
    0x800, // compute_shader
    0x1000, // copy
    0x2000, // resolve
    0x4000, // blit
    0x8000, // clear
    0x10000, // host
];

/// For each stage its usages.
pub(crate) static USAGES_AT: [u64; 17] = [
    0x1, // draw_indirect
    0x2, // index_input
    0x4, // vertex_attribute_input
    0x78, // vertex_shader
    0x780, // tessellation_control_shader
    0x7800, // tessellation_evaluation_shader
    0x78000, // geometry_shader
    0xc0000000, // early_fragment_tests
    0x8780000, // fragment_shader
    0x300000000, // late_fragment_tests
    0x30000000, // color_attachment_output
    0x7800000, // compute_shader
    0x2400000000, // copy
    0x4800000000, // resolve
    0x9000000000, // blit
    0x10000000000, // clear
    0x60000000000, // host
];

/// For each access its usages.
pub(crate) static USAGES_WITH: [u64; 16] = [
    0x1, // indirect_command_read
    0x2, // index_read
    0x4, // vertex_attribute_read
    0x888888, // uniform_read
    0x1111110, // shader_sampled_read
    0x2222220, // shader_storage_read
    0x4444440, // shader_storage_write
    0x8000000, // input_attachment_read
    0x10000000, // color_attachment_read
    0x20000000, // color_attachment_write
    0x140000000, // depth_stencil_attachment_read
    0x280000000, // depth_stencil_attachment_write
    0x1c00000000, // transfer_read
    0x1e000000000, // transfer_write
    0x20000000000, // host_read
    0x40000000000, // host_write
];

/// For each stage the accesses that it has.
pub(crate) static ACCESSES_AT: [u64; 17] = [
    0x1, // draw_indirect
    0x2, // index_input
    0x4, // vertex_attribute_input
    0x78, // vertex_shader
    0x78, // tessellation_control_shader
    0x78, // tessellation_evaluation_shader
    0x78, // geometry_shader
    0xc00, // early_fragment_tests
    0xf8, // fragment_shader
    0xc00, // late_fragment_tests
    0x300, // color_attachment_output
    0x78, // compute_shader
    0x3000, // copy
    0x3000, // resolve
    0x3000, // blit
    0x2000, // clear
    0xc000, // host
];

/// All plain stages.
pub(crate) const PLAIN_STAGES: u64 = 0x1ffff;

/// All plain stages but the host.
pub(crate) const DEVICE_STAGES: u64 = 0xffff;

/// All plain accesses.
pub(crate) const PLAIN_ACCESSES: u64 = 0xffff;

/// The usages that read.
pub(crate) const READS: u64 = 0x21d5bbbbbbf;

/// The usages that write.
pub(crate) const WRITES: u64 = 0x5e2a4444440;
