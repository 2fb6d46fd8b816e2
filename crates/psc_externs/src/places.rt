//! Where the names of a module stand: its own declarations and its mentions of names.

ghost use Rattle.std.specs.Prelude.{◌≡◌};

use crate::rows::Entity;
use psc_items::SharedItems;
use psc_text::{ModuleName, Span};
use std::alloc::AllocError;

/// A name that the module declares, exported or not.
#[derive(Debug, Drop)]
pub struct DeclRow {
    pub entity: Entity,
    pub span: Span,
}

impl Clone for DeclRow {
    ghost is_clone = { λ row copy. copy ≡ row };

    fn clone(&self) -> Result<DeclRow, AllocError> {
        let entity = self.entity.clone()?;
        Ok(DeclRow {
            entity,
            span: self.span,
        })
    }
}

/// A written mention of a name, by its true module.
#[derive(Debug, Drop)]
pub struct UseRow {
    pub module: ModuleName,
    pub entity: Entity,
    pub span: Span,
}

impl Clone for UseRow {
    ghost is_clone = { λ row copy. copy ≡ row };

    fn clone(&self) -> Result<UseRow, AllocError> {
        let module = self.module.clone()?;
        let entity = self.entity.clone()?;
        Ok(UseRow {
            module,
            entity,
            span: self.span,
        })
    }
}

/// The places of a module's names. A clone shares its rows.
#[derive(Debug, Drop)]
pub struct Places {
    pub decls: SharedItems<DeclRow>,
    pub module: ModuleName,
    /// The mentions in declarations, in the order of the source.
    pub uses: SharedItems<UseRow>,
}

impl Clone for Places {
    ghost is_clone = { λ row copy. copy ≡ row };

    fn clone(&self) -> Result<Places, AllocError> {
        let decls = self.decls.clone()?;
        let module = self.module.clone()?;
        let uses = self.uses.clone()?;
        Ok(Places {
            decls,
            module,
            uses,
        })
    }
}
