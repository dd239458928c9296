//! The keys of a manifest, of a lock and of installed.json.

ghost use Rattle.std.specs.Prelude.{◌≡◌};
ghost use Rattle.manifest_read.specs.Keys.{key_text};

/// A key of a manifest, of a lock or of installed.json, or of an object in one of them.
#[derive(Clone, Copy, Debug, PartialEq, Eq)]
pub enum Key {
    /// `name`.
    Name,
    /// `version`.
    Version,
    /// `type`.
    Type,
    /// `require`.
    Require,
    /// `require-dev`.
    RequireDev,
    /// `conflict`.
    Conflict,
    /// `replace`.
    Replace,
    /// `provide`.
    Provide,
    /// `autoload`.
    Autoload,
    /// `autoload-dev`.
    AutoloadDev,
    /// `repositories`.
    Repositories,
    /// `minimum-stability`.
    MinimumStability,
    /// `prefer-stable`.
    PreferStable,
    /// `config`.
    Config,
    /// `target-dir`.
    TargetDir,
    /// `include-path`.
    IncludePath,
    /// `psr-4`.
    Psr4,
    /// `psr-0`.
    Psr0,
    /// `classmap`.
    Classmap,
    /// `files`.
    Files,
    /// `exclude-from-classmap`.
    Exclusions,
    /// `packagist`.
    Packagist,
    /// `packagist.org`.
    PackagistOrg,
    /// `url`.
    Url,
    /// `canonical`.
    Canonical,
    /// `only`.
    Only,
    /// `exclude`.
    Exclude,
    /// `options`.
    Options,
    /// `versions`.
    Versions,
    /// `reference`.
    Reference,
    /// `vendor-dir`.
    VendorDir,
    /// `platform`.
    Platform,
    /// `optimize-autoloader`.
    OptimizeAutoloader,
    /// `classmap-authoritative`.
    ClassmapAuthoritative,
    /// `content-hash`.
    ContentHash,
    /// `packages`.
    Packages,
    /// `packages-dev`.
    PackagesDev,
    /// `aliases`.
    Aliases,
    /// `stability-flags`.
    StabilityFlags,
    /// `prefer-lowest`.
    PreferLowest,
    /// `platform-dev`.
    PlatformDev,
    /// `plugin-api-version`.
    PluginApiVersion,
    /// `_readme`.
    Readme,
    /// `dist`.
    Dist,
    /// `version_normalized`.
    VersionNormalized,
    /// `install-path`.
    InstallPath,
    /// `dev`.
    Dev,
    /// `dev-package-names`.
    DevPackageNames,
}

impl Key {
    /// The key as it is written.
    #[tactic(auto, unfolding(crate::specs::Keys::key_text))]
    pub fn text(self) -> &'static [u8]
        ensures { result.now ≡ key_text self }
    {
        match self {
            Key::Name => b"name",
            Key::Version => b"version",
            Key::Type => b"type",
            Key::Require => b"require",
            Key::RequireDev => b"require-dev",
            Key::Conflict => b"conflict",
            Key::Replace => b"replace",
            Key::Provide => b"provide",
            Key::Autoload => b"autoload",
            Key::AutoloadDev => b"autoload-dev",
            Key::Repositories => b"repositories",
            Key::MinimumStability => b"minimum-stability",
            Key::PreferStable => b"prefer-stable",
            Key::Config => b"config",
            Key::TargetDir => b"target-dir",
            Key::IncludePath => b"include-path",
            Key::Psr4 => b"psr-4",
            Key::Psr0 => b"psr-0",
            Key::Classmap => b"classmap",
            Key::Files => b"files",
            Key::Exclusions => b"exclude-from-classmap",
            Key::Packagist => b"packagist",
            Key::PackagistOrg => b"packagist.org",
            Key::Url => b"url",
            Key::Canonical => b"canonical",
            Key::Only => b"only",
            Key::Exclude => b"exclude",
            Key::Options => b"options",
            Key::Versions => b"versions",
            Key::Reference => b"reference",
            Key::VendorDir => b"vendor-dir",
            Key::Platform => b"platform",
            Key::OptimizeAutoloader => b"optimize-autoloader",
            Key::ClassmapAuthoritative => b"classmap-authoritative",
            Key::ContentHash => b"content-hash",
            Key::Packages => b"packages",
            Key::PackagesDev => b"packages-dev",
            Key::Aliases => b"aliases",
            Key::StabilityFlags => b"stability-flags",
            Key::PreferLowest => b"prefer-lowest",
            Key::PlatformDev => b"platform-dev",
            Key::PluginApiVersion => b"plugin-api-version",
            Key::Readme => b"_readme",
            Key::Dist => b"dist",
            Key::VersionNormalized => b"version_normalized",
            Key::InstallPath => b"install-path",
            Key::Dev => b"dev",
            Key::DevPackageNames => b"dev-package-names",
        }
    }
}
