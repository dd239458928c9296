//! Whose rules they are, and of which folder they speak.

ghost use Rattle.std.specs.Prelude.{◌≡◌, ◌<◌, ◌^◌, ◌++◌, IfOk, OnOk, length};
ghost use Rattle.psr_routes.specs.PackageOrder.{package_order_of};
ghost use Rattle.psr_routes.specs.Routes.{root_sources, package_sources, sources_of, loading_sources_of};
ghost use Rattle.autoload_build.specs.BuiltTables.{name_of};
ghost use Rattle.autoload_build.specs.Jobs.{place_of};
ghost use Rattle.autoload_build.specs.Steps.{package_source, seen, source_of};

use manifest_read::{Autoload, Manifest};
use path_name::{Name, Path};
use psr_routes::{Placed, package_order};
use std::alloc::{AllocError, Global};

/// Rules with the folder that they speak of.
#[derive(Clone, Copy)]
pub struct Source<'a> {
    /// The package whose rules they are; the root's have none.
    pub owner: Option<&'a Placed>,
    /// The folder, as tables name it.
    pub folder: &'a Path,
    /// The rules.
    pub rules: &'a Autoload,
}

impl<'a> Source<'a> {
    fn of(member: &'a Placed) -> Source<'a>
        ensures { source_of result ≡ package_source member.now }
    {
        Source {
            owner: Some(member),
            folder: &member.shown,
            rules: &member.package.autoload,
        }
    }

    /// Where the files are read that the rules speak of.
    pub fn place(&self) -> &Path
        ensures { result.now ≡ place_of (source_of self.now) }
    {
        match self.owner {
            None => self.folder,
            Some(member) => &member.at,
        }
    }

    /// The name of the package whose rules they are.
    pub fn name(&self, root: &'a Manifest) -> &'a Name
        ensures { result.now ≡ name_of root.now (source_of self.now) }
    {
        match self.owner {
            None => &root.package.name,
            Some(member) => &member.package.name,
        }
    }
}

/// The rules of a project, in both orders.
#[derive(Drop)]
pub struct Sources<'a> {
    /// For prefixes and listed classes: the root first, then the packages in reverse order.
    pub searched: Vec<Source<'a>>,
    /// For files that are always loaded: the packages in order, and the root last.
    pub loaded: Vec<Source<'a>>,
}

impl<'a> Sources<'a> {
    /// The rules of a project. Its one refusal is want of memory.
    #[tactic(auto, unfolding(psr_routes::specs::Routes::sources_of, psr_routes::specs::Routes::loading_sources_of))]
    pub fn of(
        alloc: Global,
        project: &'a Path,
        root: &'a Manifest,
        members: &'a [Placed],
        dev: bool,
    ) -> Result<Sources<'a>, AllocError>
        requires { length members.now < 2 ^ 32 }
        ensures searched { IfOk result (λ sources. seen sources.searched.items ≡ sources_of project.now root.now members.now dev) }
        ensures loaded { IfOk result (λ sources. seen sources.loaded.items ≡ loading_sources_of project.now root.now members.now dev) }
    {
        let mut packages = package_sources(alloc, members)?;
        let mut loaded = Vec::from_slice(alloc, packages.as_slice())?;
        put_root(&mut loaded, project, root, dev)?;
        let mut searched = Vec::new(alloc);
        put_root(&mut searched, project, root, dev)?;
        packages.reverse();
        searched.append(&mut packages)?;
        Ok(Sources { searched, loaded })
    }
}

/// Puts the rules of the root: `autoload`, then `autoload-dev` where it counts.
fn put_root<'a>(
    sources: &mut Vec<Source<'a>>,
    project: &'a Path,
    root: &'a Manifest,
    dev: bool,
) -> Result<(), AllocError>
    ensures { OnOk result (seen sources.new.items ≡ seen sources.old.items ++ root_sources project.now root.now dev) }
{
    sources.push(Source {
        owner: None,
        folder: project,
        rules: &root.package.autoload,
    })?;
    if dev {
        sources.push(Source {
            owner: None,
            folder: project,
            rules: &root.autoload_dev,
        })?;
    }
    Ok(())
}

/// The rules of the packages in their order.
fn package_sources<'a>(alloc: Global, members: &'a [Placed]) -> Result<Vec<Source<'a>>, AllocError>
    requires { length members.now < 2 ^ 32 }
    ensures { IfOk result (λ sources. seen sources.items ≡ package_sources members.now) }
{
    let order = package_order(alloc, members)?;
    in_order(alloc, members, order.as_slice())
}

/// The rules of the packages, of which the order is known.
fn in_order<'a>(
    alloc: Global,
    members: &'a [Placed],
    order: &[u32],
) -> Result<Vec<Source<'a>>, AllocError>
    requires { order.now ≡ package_order_of members.now }
    ensures { IfOk result (λ sources. seen sources.items ≡ package_sources members.now) }
{
    let mut sources = Vec::with_capacity(alloc, order.len())?;
    for place in order {
        sources.push(Source::of(&members[*place as usize]))?;
    }
    Ok(sources)
}
