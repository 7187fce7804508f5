// The measured files.
ghost use Rattle.std.specs.Prelude.{◌≡◌};
ghost use Rattle.dds.specs.Figures.{Figures};

/// How many figures were measured on files of other tools. The rules give each of them.
pub fn measured_figures() -> u32
    ensures value { result ≡ 12 }
    ensures figures { Figures }
{
    12
}
