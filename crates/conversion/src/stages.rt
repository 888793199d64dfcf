// Shader stages as Vulkan numbers them.
ghost use Rattle.std.specs.Prelude.{◌≡◌};
ghost use Rattle.conversion.specs.Stages.{stage_flags};

// A constant table, by the project's rule. VkShaderStageFlagBits, by stage bit: vertex, fragment, compute, task, mesh, ray generation, miss, any hit, closest hit.
const STAGE_FLAGS: [u32; 9] = [0x1, 0x10, 0x20, 0x40, 0x80, 0x100, 0x800, 0x200, 0x400];

// A function under wgpu-hal's name, as its other conversions. The flags of the stage bits that are set; bits that no stage has are ignored.
pub fn map_shader_stage(stages: u32) -> u32
    ensures { result ≡ stage_flags stages }
{
    // a loop, since a filter and a fold would say it in as many words
    let mut flags = 0;
    for (bit, flag) in STAGE_FLAGS.iter().enumerate() {
        if stages & (1 << bit) != 0 {
            flags |= *flag;
        }
    }
    flags
}
