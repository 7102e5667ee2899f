ghost use Rattle.std.specs.Prelude.{ℕ, List, Option};
ghost use Rattle.pch_io.specs.Outside.{Files};
ghost use Rattle.script_defs.specs.declared.command.FileUse.{FileUse};
ghost use Rattle.session_defs.specs.Files.{Contents};
ghost use Rattle.session_laws.specs.Nets.{DescribeNets};
ghost use Rattle.session_load.specs.Usable.{AreUsable};

/// The specifications among files that can be used describe nets, as the laws of sessions ask.
pub fn usable_files_describe_nets()
    ensures { (told : Option Files) (used : ℕ) (uses : List FileUse) (contents : List Contents)
        → AreUsable told used uses contents → DescribeNets contents }
{}
