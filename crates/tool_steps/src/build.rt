//! What a program is built for, as its version says.
ghost use Rattle.std.specs.Prelude.{◌≡◌};
ghost use Rattle.tool_steps.specs.Builds.{build_text};

/// The processor for which a program is built, and how it is linked. The program cannot find this
/// out when it runs, so each build names it.
#[derive(Clone, Copy, Debug, PartialEq, Eq)]
pub enum Build {
    /// For x86-64. The program loads the C library of the machine.
    X86_64,
    /// For x86-64, with the C library in the program.
    X86_64Static,
    /// For 64-bit ARM. The program loads the C library of the machine.
    Arm64,
    /// For 64-bit ARM, with the C library in the program.
    Arm64Static,
}

impl Build {
    /// The words for it in the version: the processor, as `uname -m` names it, and how the program
    /// is linked.
    pub fn text(self) -> &'static str
        ensures { result.now ≡ build_text self }
    {
        match self {
            Build::X86_64 => "x86_64, dynamic",
            Build::X86_64Static => "x86_64, static",
            Build::Arm64 => "aarch64, dynamic",
            Build::Arm64Static => "aarch64, static",
        }
    }
}
