ghost use Rattle.typing.specs.Told.{TableTold};

// Nothing is computed here: the contract is a theorem, so that the check asks for its proof.

// The type table is read as the types that it stands for.
pub fn table_told_stands()
    ensures { TableTold }
{}
