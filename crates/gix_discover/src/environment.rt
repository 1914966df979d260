//! Has the environment variables that git reads (git, "Environment variables").

use crate::error::{DiscoverError, Reason, about_value};
use gix_config::{boolean, decimal};
use std::alloc::{AllocError, Allocator, Global};
use std::env::{Env, FillError};

/// Names an environment variable.
#[derive(Clone, Copy, PartialEq, Eq)]
pub enum Variable {
    GitDir,
    CommonDir,
    WorkTree,
    ImplicitWorkTree,
    ObjectDirectory,
    AlternateObjectDirectories,
    CeilingDirectories,
    DiscoveryAcrossFilesystem,
    Home,
    XdgConfigHome,
    ConfigNoSystem,
    ConfigGlobal,
    ConfigSystem,
    ConfigCount,
    ConfigParameters,
    NoReplaceObjects,
    ReplaceRefBase,
    ShallowFile,
    GraftFile,
    IndexFile,
    Namespace,
    SuperPrefix,
    RefParanoia,
    SudoUid,
}

/// Is a variable with its name in the environment.
struct Named {
    variable: Variable,
    name: &'static str,
}

/// The names of all variables.
static NAMES: [Named; 24] = [
    Named {
        variable: Variable::GitDir,
        name: "GIT_DIR",
    },
    Named {
        variable: Variable::CommonDir,
        name: "GIT_COMMON_DIR",
    },
    Named {
        variable: Variable::WorkTree,
        name: "GIT_WORK_TREE",
    },
    Named {
        variable: Variable::ImplicitWorkTree,
        name: "GIT_IMPLICIT_WORK_TREE",
    },
    Named {
        variable: Variable::ObjectDirectory,
        name: "GIT_OBJECT_DIRECTORY",
    },
    Named {
        variable: Variable::AlternateObjectDirectories,
        name: "GIT_ALTERNATE_OBJECT_DIRECTORIES",
    },
    Named {
        variable: Variable::CeilingDirectories,
        name: "GIT_CEILING_DIRECTORIES",
    },
    Named {
        variable: Variable::DiscoveryAcrossFilesystem,
        name: "GIT_DISCOVERY_ACROSS_FILESYSTEM",
    },
    Named {
        variable: Variable::Home,
        name: "HOME",
    },
    Named {
        variable: Variable::XdgConfigHome,
        name: "XDG_CONFIG_HOME",
    },
    Named {
        variable: Variable::ConfigNoSystem,
        name: "GIT_CONFIG_NOSYSTEM",
    },
    Named {
        variable: Variable::ConfigGlobal,
        name: "GIT_CONFIG_GLOBAL",
    },
    Named {
        variable: Variable::ConfigSystem,
        name: "GIT_CONFIG_SYSTEM",
    },
    Named {
        variable: Variable::ConfigCount,
        name: "GIT_CONFIG_COUNT",
    },
    Named {
        variable: Variable::ConfigParameters,
        name: "GIT_CONFIG_PARAMETERS",
    },
    Named {
        variable: Variable::NoReplaceObjects,
        name: "GIT_NO_REPLACE_OBJECTS",
    },
    Named {
        variable: Variable::ReplaceRefBase,
        name: "GIT_REPLACE_REF_BASE",
    },
    Named {
        variable: Variable::ShallowFile,
        name: "GIT_SHALLOW_FILE",
    },
    Named {
        variable: Variable::GraftFile,
        name: "GIT_GRAFT_FILE",
    },
    Named {
        variable: Variable::IndexFile,
        name: "GIT_INDEX_FILE",
    },
    Named {
        variable: Variable::Namespace,
        name: "GIT_NAMESPACE",
    },
    Named {
        variable: Variable::SuperPrefix,
        name: "GIT_INTERNAL_SUPER_PREFIX",
    },
    Named {
        variable: Variable::RefParanoia,
        name: "GIT_REF_PARANOIA",
    },
    Named {
        variable: Variable::SudoUid,
        name: "SUDO_UID",
    },
];

/// Is a variable that is set, with its value.
#[derive(Drop)]
struct Assigned<A: Allocator> {
    variable: Variable,
    value: Vec<u8, A>,
}

/// Is a setting from `GIT_CONFIG_KEY_n` and `GIT_CONFIG_VALUE_n`.
#[derive(Drop)]
pub(crate) struct Pair<A: Allocator> {
    pub(crate) key: Option<Vec<u8, A>>,
    pub(crate) value: Option<Vec<u8, A>>,
}

/// Has the environment variables that git reads, and the path of the current folder, as bytes.
#[derive(Drop)]
pub struct Environment<A: Allocator + Copy = Global> {
    folder: Vec<u8, A>,
    assigned: Vec<Assigned<A>, A>,
    pairs: Vec<Pair<A>, A>,
}

/// Reads a variable, if it has at most `most` bytes; `None` if it is longer or is not set.
fn read_short<R: Env, A: Allocator>(
    alloc: A,
    rt: &R,
    name: &str,
    most: usize,
) -> Result<Result<Vec<u8, A>, FillError>, AllocError> {
    let mut bytes = Vec::new(alloc);
    bytes.resize(most, 0u8)?;
    match rt.var(name, bytes.as_mut_slice()) {
        Ok(n) => {
            bytes.truncate(n);
            Ok(Ok(bytes))
        }
        Err(error) => Ok(Err(error)),
    }
}

/// Reads a variable; `None` if it is not set.
fn read_variable<R: Env, A: Allocator + Copy>(
    alloc: A,
    rt: &R,
    name: &str,
) -> Result<Option<Vec<u8, A>>, AllocError> {
    let mut most = 256usize;
    for _ in 0..usize::BITS {
        match read_short(alloc, rt, name, most)? {
            Ok(bytes) => return Ok(Some(bytes)),
            Err(FillError::NotPresent) => return Ok(None),
            Err(FillError::TooLong) => most = most.saturating_add(most),
        }
    }
    Err(AllocError)
}

/// Reads the variable `GIT_CONFIG_KEY_n` or `GIT_CONFIG_VALUE_n`.
fn read_numbered<R: Env, A: Allocator + Copy>(
    alloc: A,
    rt: &R,
    front: &str,
    number: u64,
) -> Result<Option<Vec<u8, A>>, AllocError> {
    let name = format!(in alloc; "{front}{number}")?;
    read_variable(alloc, rt, name.as_str())
}

/// Reads the path of the current folder.
fn read_folder<R: Env, A: Allocator + Copy>(
    alloc: A,
    rt: &R,
) -> Result<Vec<u8, A>, DiscoverError<A>> {
    let mut bytes = Vec::new(alloc);
    bytes.resize(4096, 0u8)?;
    match rt.current_dir(bytes.as_mut_slice()) {
        Ok(n) => {
            bytes.truncate(n);
            Ok(bytes)
        }
        Err(_) => Err(DiscoverError::from(Reason::NoCurrentFolder)),
    }
}

impl<A: Allocator + Copy> Environment<A> {
    /// Makes an environment with no variables, and with this current folder.
    ///
    /// # Errors
    ///
    /// Fails if an allocation failed.
    pub fn new(alloc: A, folder: &[u8]) -> Result<Environment<A>, AllocError> {
        Ok(Environment {
            folder: folder.to_vec(alloc)?,
            assigned: Vec::new(alloc),
            pairs: Vec::new(alloc),
        })
    }

    /// Reads the variables and the current folder of the process.
    ///
    /// # Errors
    ///
    /// - `NoCurrentFolder` if the current folder cannot be read.
    /// - `OutOfMemory` if an allocation failed.
    pub fn read<R: Env>(alloc: A, rt: &R) -> Result<Environment<A>, DiscoverError<A>> {
        let folder = read_folder(alloc, rt)?;
        let mut environment = Environment {
            folder,
            assigned: Vec::new(alloc),
            pairs: Vec::new(alloc),
        };
        environment.add_variables(alloc, rt)?;
        environment.add_pairs(alloc, rt)?;
        Ok(environment)
    }

    /// Adds each variable that is set.
    fn add_variables<R: Env>(&mut self, alloc: A, rt: &R) -> Result<(), AllocError> {
        for named in &NAMES {
            if let Some(value) = read_variable(alloc, rt, named.name)? {
                let variable = named.variable;
                self.assigned.push(Assigned { variable, value })?;
            }
        }
        Ok(())
    }

    /// Adds the settings that `GIT_CONFIG_COUNT` counts, up to the first that is missing.
    fn add_pairs<R: Env>(&mut self, alloc: A, rt: &R) -> Result<(), AllocError> {
        let count = self.config_count().unwrap_or(0);
        for number in 0..count {
            let key = read_numbered(alloc, rt, "GIT_CONFIG_KEY_", number)?;
            let value = read_numbered(alloc, rt, "GIT_CONFIG_VALUE_", number)?;
            let is_last = key.is_none() || value.is_none();
            self.pairs.push(Pair { key, value })?;
            if is_last {
                break;
            }
        }
        Ok(())
    }

    /// Sets a variable, in place of an earlier value.
    ///
    /// # Errors
    ///
    /// Fails if an allocation failed. Then the environment is unchanged.
    pub fn set(&mut self, alloc: A, variable: Variable, value: &[u8]) -> Result<(), AllocError> {
        let value = value.to_vec(alloc)?;
        self.assigned.push(Assigned { variable, value })?;
        Ok(())
    }

    /// Returns the value of a variable; `None` if it is not set.
    pub fn get(&self, variable: Variable) -> Option<&[u8]> {
        let mut found = None;
        for one in &self.assigned {
            if one.variable == variable {
                found = Some(one.value.as_slice());
            }
        }
        found
    }

    /// Returns the path of the current folder.
    pub fn folder(&self) -> &[u8] {
        self.folder.as_slice()
    }

    /// Returns the number in `GIT_CONFIG_COUNT`; `None` if there is none that fits 31 bits.
    pub(crate) fn config_count(&self) -> Option<u64> {
        match self.get(Variable::ConfigCount) {
            Some([]) => Some(0),
            Some(text) => decimal(text).map(u64::from),
            None => None,
        }
    }

    /// Tells whether a variable is set to true; `usual` if it is not set or not a boolean.
    pub(crate) fn is_set(&self, variable: Variable, usual: bool) -> bool {
        match self.get(variable) {
            Some(text) => boolean(text).unwrap_or(usual),
            None => usual,
        }
    }

    /// Returns why the value of a variable is refused; `None` if it is not. `GIT_REF_PARANOIA` has to be
    /// true: else git leaves broken references out. `GIT_INTERNAL_SUPER_PREFIX`, with which git calls
    /// itself, must not be set.
    fn refused_for(&self, variable: Variable) -> Option<Reason> {
        match (variable, self.get(variable)) {
            (
                Variable::ConfigNoSystem
                | Variable::DiscoveryAcrossFilesystem
                | Variable::ImplicitWorkTree,
                Some(text),
            ) if boolean(text).is_none() => Some(Reason::BadBoolean),
            (Variable::RefParanoia, Some(text)) => match boolean(text) {
                Some(true) => None,
                Some(false) => Some(Reason::UnsupportedValue),
                None => Some(Reason::BadBoolean),
            },
            (Variable::SuperPrefix, Some(_)) => Some(Reason::UnsupportedValue),
            _ => None,
        }
    }

    /// Checks the values of the variables.
    pub(crate) fn check_values(&self, alloc: A) -> Result<(), DiscoverError<A>> {
        for named in &NAMES {
            if let Some(reason) = self.refused_for(named.variable) {
                let value = self.get(named.variable).unwrap_or(&[]);
                return Err(about_value(alloc, reason, named.name.as_bytes(), value));
            }
        }
        Ok(())
    }

    /// Returns the settings of `GIT_CONFIG_KEY_n` and `GIT_CONFIG_VALUE_n`.
    pub(crate) fn pairs(&self) -> &[Pair<A>] {
        self.pairs.as_slice()
    }
}
