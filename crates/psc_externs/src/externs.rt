//! All that a module shows to the modules that import it.

ghost use Rattle.std.specs.Prelude.{◌≡◌};

use crate::rows::{
    ClassRow, ConstructorRow, ExportRow, FixityRow, InstanceRow, SynonymRow, TypeRow, ValueRow,
};
use psc_items::SharedItems;
use psc_text::ModuleName;
use std::alloc::AllocError;

/// The interface of a module. A clone shares its rows.
#[derive(Debug, Drop)]
pub struct Externs {
    pub classes: SharedItems<ClassRow>,
    pub constructors: SharedItems<ConstructorRow>,
    /// What the module exports, ascending by space, name and module.
    pub exports: SharedItems<ExportRow>,
    pub fixities: SharedItems<FixityRow>,
    /// The modules that it imports itself, ascending, without `Prim`.
    pub imports: SharedItems<ModuleName>,
    pub instances: SharedItems<InstanceRow>,
    pub module: ModuleName,
    pub synonyms: SharedItems<SynonymRow>,
    pub types: SharedItems<TypeRow>,
    /// The exported values, members of classes among them.
    pub values: SharedItems<ValueRow>,
}

impl Clone for Externs {
    ghost is_clone = { λ row copy. copy ≡ row };

    fn clone(&self) -> Result<Externs, AllocError> {
        let classes = self.classes.clone()?;
        let constructors = self.constructors.clone()?;
        let exports = self.exports.clone()?;
        let fixities = self.fixities.clone()?;
        let imports = self.imports.clone()?;
        let instances = self.instances.clone()?;
        let module = self.module.clone()?;
        let synonyms = self.synonyms.clone()?;
        let types = self.types.clone()?;
        let values = self.values.clone()?;
        Ok(Externs {
            classes,
            constructors,
            exports,
            fixities,
            imports,
            instances,
            module,
            synonyms,
            types,
            values,
        })
    }
}
